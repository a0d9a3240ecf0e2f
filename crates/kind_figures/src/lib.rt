// Paper 02, 3: kind 9, the figures of a security.
#![tactic(auto)]

ghost use Rattle.std.specs.Prelude.{◌≡◌};
ghost use Rattle.definitions.specs.declared.Event.TheVariants as event;
ghost use Rattle.definitions.specs.Answers.{answered};
ghost use Rattle.definitions.specs.Gate.{result_of};
ghost use Rattle.kind_contract.specs.First.{Ready, later_outcome};

use definitions::{Answer, Refusal, SecurityFigures};

pub fn handle(words: &mut [u32], x: SecurityFigures) -> Answer
    requires { Ready words.old (event.Figures x) }
    ensures { (answered result, words.new) ≡ result_of words.old (later_outcome words.old (event.Figures x)) }
{
    let s = state_records::security_at(words, x.security);
    if !securities::settable(s.prior.close, x.figures) {
        return Err(Refusal::Figures);
    }
    state_records::put_security(words, x.security, securities::after_figures(x, s));
    Ok(None)
}
