// Paper 01, "The lent state": where each record stands, and what condition 1 asks of the words.
ghost use Rattle.std.specs.Prelude.{◌≡◌, ◌+◌, ◌≤◌, length};
ghost use Rattle.definitions.specs.Lists.{put};
ghost use Rattle.definitions.specs.State.{header_size, security_place, desk_place, header_of, sizes_fit, state_fits};

use definitions::Header;
use definitions::codes::{
    CLOCK_PLACE, DESK_SIZE, HEADER_SIZE, LAST_TIME, MAX_CUSTOMERS, MAX_SECURITIES, PRE_CLOSE,
    SECURITY_SIZE, SESSION_PLACE,
};

// The places are 64 bits wide: no number of customers or securities that the words may hold makes the sum wrap.
pub fn security_place(s: u32) -> usize
    ensures { result ≡ security_place s }
{
    HEADER_SIZE + SECURITY_SIZE * (s as usize)
}

pub fn desk_place(securities: u32, k: u32) -> usize
    ensures { result ≡ desk_place securities k }
{
    security_place(securities) + DESK_SIZE * (k as usize)
}

#[tactic(auto, unfolding(definitions::specs::State::header_of, definitions::specs::Lists::part))]
pub fn header_of(words: &[u32]) -> Header
    requires { header_size ≤ length words.now }
    ensures { result ≡ header_of words.now }
{
    Header {
        customers: words[0],
        securities: words[1],
        clock: words[CLOCK_PLACE],
        session: words[SESSION_PLACE],
    }
}

// The header counts the securities that stand before the desks, so the words themselves say where a desk stands.
pub fn desk_place_in(words: &[u32], k: u32) -> usize
    requires { header_size ≤ length words.now }
    ensures { result ≡ desk_place (header_of words.now).securities k }
{
    let h = header_of(words);
    desk_place(h.securities, k)
}

pub fn sizes_fit(customers: u32, securities: u32) -> bool
    ensures { result ≡ sizes_fit customers securities }
{
    (1 <= customers)
        & (customers <= MAX_CUSTOMERS)
        & (1 <= securities)
        & (securities <= MAX_SECURITIES)
}

#[tactic(auto, using(crate::proofs::Fits::no_header), unfolding(definitions::specs::State::state_fits))]
pub fn state_fits(words: &[u32]) -> bool
    ensures { result ≡ state_fits words.now }
{
    let count = words.len();
    if count < HEADER_SIZE {
        return false;
    }
    let h = header_of(words);
    sizes_fit(h.customers, h.securities)
        & (count == desk_place(h.securities, h.customers))
        & (h.clock <= LAST_TIME)
        & (h.session <= PRE_CLOSE)
}

#[tactic(auto, using(crate::proofs::Copied::copied_next, crate::proofs::Copied::copied_all))]
pub fn copy_in(dst: &mut [u32], at: usize, src: &[u32])
    requires { at + length src.now ≤ length dst.old }
    ensures { dst.new ≡ put dst.old at src.now }
{
    for (i, word) in src.iter().enumerate() {
        dst[at + i] = *word;
    }
}
