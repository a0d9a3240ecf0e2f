// Paper 01, condition 8: kind 2 reads all records.
ghost use Rattle.std.specs.Prelude.{true, ◌≡◌, ◌<◌};
ghost use Rattle.definitions.specs.Lists.{all_below};
ghost use Rattle.definitions.specs.State.{state_fits};
ghost use Rattle.state_soundness.specs.Tested.{all_sound};

use crate::rows::sound_desk_at;
use crate::sound::sound_security_at;
use state::header_of;

pub fn all_sound(words: &[u32]) -> bool
    requires { state_fits words.now ≡ true }
    ensures { result ≡ all_sound words.now }
{
    let h = header_of(words);
    let securities = all_below(h.securities, |s| sound_security_at(words, s));
    let desks = all_below(h.customers, |k| sound_desk_at(words, k));
    securities & desks
}

// Whether every record is sound whose number is below a count. Mostly all are: ending at the first that is not takes longer.
fn all_below<F: Fn(u32) -> bool>(count: u32, sound: F) -> bool
    requires { (i : _) → i < count → F.pre sound i }
    ensures { (p : _) → ((i : _) (met : _) → i < count → F.post sound i met → met ≡ p i) → result ≡ all_below count p }
{
    let mut all = true;
    for i in 0..count {
        all &= sound(i);
    }
    all
}
