// Paper 01, "Events": kind 3, a setup.
#![tactic(auto)]

ghost use Rattle.std.specs.Prelude.{◌≡◌};
ghost use Rattle.definitions.specs.declared.Event.TheVariants as event;
ghost use Rattle.definitions.specs.Answers.{answered};
ghost use Rattle.definitions.specs.Gate.{result_of};
ghost use Rattle.kind_contract.specs.First.{Ready, later_outcome};

use definitions::{Answer, Setup};

pub fn handle(words: &mut [u32], x: Setup) -> Answer
    requires { Ready words.old (event.Setup x) }
    ensures { (answered result, words.new) ≡ result_of words.old (later_outcome words.old (event.Setup x)) }
{
    state_records::change_security(words, x.security, |s| securities::after_setup(x, s));
    Ok(None)
}
