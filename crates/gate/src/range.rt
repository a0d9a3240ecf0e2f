// The day's range of a security, for an order ticket.
ghost use Rattle.std.specs.Prelude.{◌≡◌};
ghost use Rattle.definitions.specs.Gate.{ceiling_number, daily_range, floor_number};

use definitions::Range;

// Total on every slice of words and every number.
pub fn daily_range(words: &[u32], s: u32) -> Option<Range>
    ensures { result ≡ daily_range words.now s }
{
    if !state::state_fits(words) {
        return None;
    }
    let h = state::header_of(words);
    if h.securities <= s {
        return None;
    }
    if !state_soundness::sound_security_at(words, s) {
        return None;
    }
    let x = state_records::security_at(words, s);
    if !ranges::has_range(x) {
        return None;
    }
    Some(ranges::range_of(x.prior.close, x.figures))
}

// 0, the absent price, for none.
pub fn floor_number(r: Option<Range>) -> u32
    ensures { result ≡ floor_number r }
{
    r.map_or(0, |range| range.floor)
}

pub fn ceiling_number(r: Option<Range>) -> u32
    ensures { result ≡ ceiling_number r }
{
    r.map_or(0, |range| range.ceiling)
}
