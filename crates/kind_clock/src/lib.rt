// Paper 01, "Events": kind 1, the clock. "Only kind 1 moves the clock."
#![tactic(auto)]

ghost use Rattle.std.specs.Prelude.{◌≡◌};
ghost use Rattle.definitions.specs.declared.Event.TheVariants as event;
ghost use Rattle.definitions.specs.Answers.{answered};
ghost use Rattle.definitions.specs.Gate.{result_of};
ghost use Rattle.kind_contract.specs.First.{Ready, later_outcome};

use definitions::Answer;
use definitions::codes::CLOCK_PLACE;

pub fn handle(words: &mut [u32], time: u32) -> Answer
    requires { Ready words.old (event.Clock time) }
    ensures { (answered result, words.new) ≡ result_of words.old (later_outcome words.old (event.Clock time)) }
{
    words[CLOCK_PLACE] = time;
    Ok(None)
}
