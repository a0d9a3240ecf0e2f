// Paper 01, "Events": kind 6, a cancel.
#![tactic(auto)]

ghost use Rattle.std.specs.Prelude.{◌≡◌};
ghost use Rattle.definitions.specs.declared.Event.TheVariants as event;
ghost use Rattle.definitions.specs.Answers.{answered};
ghost use Rattle.definitions.specs.Gate.{result_of};
ghost use Rattle.kind_contract.specs.First.{Ready, later_outcome};

use definitions::{Answer, Cancel, Refusal};

pub fn handle(words: &mut [u32], k: u32, x: Cancel) -> Answer
    requires { Ready words.old (event.Cancel k x) }
    ensures { (answered result, words.new) ≡ result_of words.old (later_outcome words.old (event.Cancel k x)) }
{
    let h = state::header_of(words);
    let found = state_records::row_with(words, k, x.number);
    if !desk_rows::open_with(x.number, found.row) {
        return Err(Refusal::NoOpenRow);
    }
    let left = desk_rows::cancelled_row(x.number, h.clock, found.row);
    one_row::change_row(words, k, found.place, left);
    Ok(None)
}
