// A history, handed to the gate in one call: events in lent bytes, one after another or by their lengths.
#![tactic(auto)]

ghost use Rattle.std.specs.Prelude.{◌≡◌, ℕ, ◌≤◌, length, take, Option};
ghost use Rattle.definitions.specs.Walk.{split};
ghost use Rattle.histories.specs.Ran.{Ran, cut, handed, listed_end, EndsWithin, Gives};

use gate::{answer_number, handle};

// Handles as many events as there are places for answers, writes the number of each answer to its place, and gives the count. The contract carries
// demand 3 to the code: over a fresh state, what the words and the answers hold of the market and of each customer is what that customer's lone run
// holds. An unknown kind or a cut event ends such a history; every other history is handed to `run_list`.
pub fn run(words: &mut [u32], events: &[u8], answers: &mut [u32]) -> usize
    ensures { Ran words.old (split (length answers.old) events.now) answers.old result words.new answers.new }
{
    run_by(
        words,
        events,
        answers,
        |at, _| reader::next_event(events, at),
    )
}

// The same for events by their lengths: every history whose bytes stand in one slice can be handed in so (`every-history`), also one in which bytes
// that are no whole event stand before others; a longer one goes on in the next call (`after-joined`). A length beyond the bytes takes what is left.
pub fn run_list(words: &mut [u32], events: &[u8], lengths: &[usize], answers: &mut [u32]) -> usize
    ensures { Ran words.old (cut (take (length answers.old) lengths.now) events.now) answers.old result words.new answers.new }
{
    run_by(
        words,
        events,
        answers,
        |at, count| listed_end(events, lengths, at, count),
    )
}

// `end_of` gives where the event at a position ends, after a count of others, if there is one.
fn run_by<F: Fn(usize, usize) -> Option<usize>>(
    words: &mut [u32],
    events: &[u8],
    answers: &mut [u32],
    end_of: F,
) -> usize
    requires callable { (at count : ℕ) → at ≤ length events.now → F.pre end_of at count }
    requires within { EndsWithin (F.post end_of) events.now }
    ensures { (ends : ℕ → ℕ → Option ℕ) → Gives (F.post end_of) events.now ends → Ran words.old (handed ends events.now (length answers.old) 0 0) answers.old result words.new answers.new }
{
    let mut at = 0;
    for (count, place) in answers.iter_mut().enumerate() {
        let Some(end) = end_of(at, count) else {
            return count;
        };
        *place = answer_number(handle(words, &events[at..end]));
        at = end;
    }
    answers.len()
}

fn listed_end(events: &[u8], lengths: &[usize], at: usize, count: usize) -> Option<usize>
    requires { at ≤ length events.now }
    ensures { result ≡ listed_end events.now lengths.now at count }
{
    let wanted = *lengths.get(count)?;
    let left = events.len() - at;
    Some(at + wanted.min(left))
}
