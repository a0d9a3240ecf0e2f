// Paper 01, "Events": kind 4, the prices of one board.
#![tactic(auto)]

ghost use Rattle.std.specs.Prelude.{◌≡◌};
ghost use Rattle.definitions.specs.declared.Event.TheVariants as event;
ghost use Rattle.definitions.specs.Answers.{answered};
ghost use Rattle.definitions.specs.Gate.{result_of};
ghost use Rattle.kind_contract.specs.First.{Ready, later_outcome};

use definitions::{Answer, BoardPrices};

pub fn handle(words: &mut [u32], x: BoardPrices) -> Answer
    requires { Ready words.old (event.Prices x) }
    ensures { (answered result, words.new) ≡ result_of words.old (later_outcome words.old (event.Prices x)) }
{
    state_records::change_security(words, x.security, |s| securities::after_prices(x, s));
    Ok(None)
}
