// The gate: lent words and one event's bytes to an answer. Every refusal comes before the first word is written.
#![tactic(auto)]

ghost use Rattle.std.specs.Prelude.{true, ◌≡◌};
ghost use Rattle.definitions.specs.Answers.{answered};
ghost use Rattle.definitions.specs.State.{state_fits};
ghost use Rattle.definitions.specs.Gate.{result_of, outcome, made};
ghost use Rattle.kind_contract.specs.First.{event_outcome};

use definitions::{Answer, Event, Refusal};

mod answers;
mod range;

pub use answers::answer_number;
pub use range::{ceiling_number, daily_range, floor_number};

// One event's bytes, handed to the gate over lent words. Total on every slice of words and of bytes.
pub fn handle(words: &mut [u32], event: &[u8]) -> Answer
    ensures { (answered result, words.new) ≡ result_of words.old (outcome words.old event.now) }
{
    if !state::state_fits(words) {
        return Err(Refusal::State);
    }
    let reading = events::read_event(event);
    let Ok(whole) = reading else {
        return reading.map(|_| None);
    };
    apply(words, whole)
}

// A fresh state of C customers and S securities, made in lent words.
pub fn make(words: &mut [u32], customers: u32, securities: u32) -> Answer
    ensures { (answered result, words.new) ≡ result_of words.old (made words.old customers securities) }
{
    if !state::sizes_fit(customers, securities) {
        return Err(Refusal::State);
    }
    if words.len() != state::desk_place(securities, customers) {
        return Err(Refusal::State);
    }
    state::make_fresh(words, customers, securities);
    Ok(None)
}

// Conditions 4 to 8 are asked once for all kinds; the function of a kind asks those after 8, and does what the event does.
fn apply(words: &mut [u32], event: Event) -> Answer
    requires { state_fits words.old ≡ true }
    ensures { (answered result, words.new) ≡ result_of words.old (event_outcome words.old event) }
{
    conditions::first_refusal(words, event)?;
    match event {
        Event::Clock(time) => kind_clock::handle(words, time),
        Event::Session(s) => kind_session::handle(words, s),
        Event::Setup(x) => kind_setup::handle(words, x),
        Event::Prices(x) => kind_prices::handle(words, x),
        Event::Order(k, x) => kind_order::handle(words, k, x),
        Event::Cancel(k, x) => kind_cancel::handle(words, k, x),
        Event::Match(k, x) => kind_match::handle(words, k, x),
        Event::Rest(k, x) => kind_rest::handle(words, k, x),
        Event::Figures(x) => kind_figures::handle(words, x),
    }
}
