// Paper 01, "Events": kind 7, a match report.
#![tactic(auto)]

ghost use Rattle.std.specs.Prelude.{◌≡◌};
ghost use Rattle.definitions.specs.declared.Event.TheVariants as event;
ghost use Rattle.definitions.specs.Answers.{answered};
ghost use Rattle.definitions.specs.Gate.{result_of};
ghost use Rattle.kind_contract.specs.First.{Ready, later_outcome};

use definitions::{Answer, Match, Refusal};

pub fn handle(words: &mut [u32], k: u32, x: Match) -> Answer
    requires { Ready words.old (event.Match k x) }
    ensures { (answered result, words.new) ≡ result_of words.old (later_outcome words.old (event.Match k x)) }
{
    let found = state_records::row_with(words, k, x.number);
    if !desk_rows::open_with(x.number, found.row) {
        return Err(Refusal::NoOpenRow);
    }
    if x.volume == 0 {
        return Err(Refusal::Volume);
    }
    if found.row.volume < x.volume {
        return Err(Refusal::Volume);
    }
    let left = desk_rows::matched_row(x.number, x.volume, found.row);
    one_row::change_row(words, k, found.place, left);
    Ok(None)
}
