// Paper 02, 1: kind 8, the rest of an MP order, which stays in the book as a limit.
#![tactic(auto)]

ghost use Rattle.std.specs.Prelude.{◌≡◌};
ghost use Rattle.definitions.specs.declared.Event.TheVariants as event;
ghost use Rattle.definitions.specs.Answers.{answered};
ghost use Rattle.definitions.specs.Gate.{result_of};
ghost use Rattle.kind_contract.specs.First.{Ready, later_outcome};

use definitions::{Answer, Refusal, Rest};

pub fn handle(words: &mut [u32], k: u32, x: Rest) -> Answer
    requires { Ready words.old (event.Rest k x) }
    ensures { (answered result, words.new) ≡ result_of words.old (later_outcome words.old (event.Rest k x)) }
{
    let found = state_records::row_with(words, k, x.number);
    if !desk_rows::open_mp_with(x.number, found.row) {
        return Err(Refusal::NoOpenRow);
    }
    let left = desk_rows::rest_row(x.number, x.price, found.row);
    one_row::change_row(words, k, found.place, left);
    Ok(None)
}
