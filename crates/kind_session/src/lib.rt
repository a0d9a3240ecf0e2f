// Paper 01, "Events": kind 2, a session.
#![tactic(auto)]

ghost use Rattle.std.specs.Prelude.{length, ◌≡◌};
ghost use Rattle.definitions.specs.Lists.{each};
ghost use Rattle.definitions.specs.State.{header_of, state_size};
ghost use Rattle.definitions.specs.declared.Event.TheVariants as event;
ghost use Rattle.definitions.specs.Answers.{answered};
ghost use Rattle.definitions.specs.Desks.{changed, session_row};
ghost use Rattle.definitions.specs.Gate.{result_of, change_security, change_desk};
ghost use Rattle.definitions.specs.Securities.{without_projected};
ghost use Rattle.kind_contract.specs.First.{Ready, later_outcome};

use definitions::Answer;
use definitions::codes::SESSION_PLACE;
use state::header_of;

// "the same session changes nothing"
pub fn handle(words: &mut [u32], s: u32) -> Answer
    requires { Ready words.old (event.Session s) }
    ensures { (answered result, words.new) ≡ result_of words.old (later_outcome words.old (event.Session s)) }
{
    let h = header_of(words);
    if s == h.session {
        return Ok(None);
    }
    words[SESSION_PLACE] = s;
    clear_projected(words);
    change_desks(words);
    Ok(None)
}

// "makes every projected price absent"
fn clear_projected(words: &mut [u32])
    requires { length words.old ≡ state_size (header_of words.old).customers (header_of words.old).securities }
    ensures { words.new ≡ each (header_of words.old).securities (change_security without_projected) words.old }
{
    let h = header_of(words);
    for s in 0..h.securities {
        state_records::change_security(words, s, securities::without_projected);
    }
}

// "removes all ATO and ATC rows", and those of type 3. Handed to a closure, as a security is, a desk would be copied once more.
fn change_desks(words: &mut [u32])
    requires { length words.old ≡ state_size (header_of words.old).customers (header_of words.old).securities }
    ensures { words.new ≡ each (header_of words.old).customers (change_desk (changed session_row)) words.old }
{
    let h = header_of(words);
    for k in 0..h.customers {
        let desk = state_records::desk_at(words, k);
        state_records::put_desk(words, k, desks::session_changed(desk));
    }
}
