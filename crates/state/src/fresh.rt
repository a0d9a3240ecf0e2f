// Paper 01, "The lent state": "A fresh state has its C and S, every lot 100 and zeros elsewhere."
ghost use Rattle.std.specs.Prelude.{true, ◌≡◌, length};
ghost use Rattle.definitions.specs.State.{state_size, sizes_fit, fresh};

use crate::words::security_place;

#[tactic(auto, using(crate::proofs::FreshState::listed_none, crate::proofs::FreshState::listed_next, crate::proofs::FreshState::listed_end))]
pub fn make_fresh(words: &mut [u32], customers: u32, securities: u32)
    requires { (length words.old ≡ state_size customers securities) × (sizes_fit customers securities ≡ true) }
    ensures { words.new ≡ fresh customers securities }
{
    words.fill(0);
    words[0] = customers;
    words[1] = securities;
    for s in 0..securities {
        words[security_place(s)] = 100;
    }
}
