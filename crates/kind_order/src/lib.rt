// Paper 01, "Events": kind 5, an order.
#![tactic(auto)]

ghost use Rattle.std.specs.Prelude.{◌≡◌};
ghost use Rattle.definitions.specs.declared.Event.TheVariants as event;
ghost use Rattle.definitions.specs.Answers.{answered};
ghost use Rattle.definitions.specs.Gate.{result_of};
ghost use Rattle.kind_contract.specs.First.{Ready, later_outcome};

use definitions::codes::DESK_ROWS;
use definitions::{Answer, MarketView, Order, Refusal};

pub fn handle(words: &mut [u32], k: u32, o: Order) -> Answer
    requires { Ready words.old (event.Order k o) }
    ensures { (answered result, words.new) ≡ result_of words.old (later_outcome words.old (event.Order k o)) }
{
    let h = state::header_of(words);
    let security = state_records::security_at(words, o.security);
    let m = MarketView {
        session: h.session,
        clock: h.clock,
        security,
    };
    let found = state_records::row_with(words, k, o.number);
    if desk_rows::holds_number(m.clock, o.number, found.row) {
        return Err(Refusal::NumberTaken);
    }
    let d = state_records::desk_at(words, k);
    let v = rules::verdict(m, d, o);
    if !desk_counters::takes_row(v) {
        state_records::put_desk(words, k, desk_counters::counted(v, d));
        return Ok(Some(v));
    }
    // Where the search ended at a row, that row is free or was cancelled more than a minute ago, and the desk is not full.
    if found.place == DESK_ROWS && desks::full(m.clock, d) {
        return Err(Refusal::FullDesk);
    }
    let after = desks::added(m.clock, o, d);
    state_records::put_desk(words, k, desk_counters::counted(v, after));
    Ok(Some(v))
}
