// Paper 02, 3, "Daily ceiling and floor": the base of a security's range, the range itself, and a price held against it.
#![tactic(auto)]

ghost use Rattle.std.specs.Prelude.{true, ◌≡◌, ◌*◌, ◌^◌, ◌≤◌, ◌<◌, max};
ghost use Rattle.ladder.specs.Bands.{last_price};
ghost use Rattle.ladder.specs.Ladder.{legal};
ghost use Rattle.definitions.specs.Codes.{max_shares};
ghost use Rattle.definitions.specs.Sound.{settable, sound_figures};
ghost use Rattle.definitions.specs.Ranges.{adjusted, base_of, ceiling_of, floor_of, has_range, not_above, range, range_of};
ghost use Rattle.definitions.specs.Rules.{outside_range};
ghost use Rattle.ranges.specs.Bounds.{Bounded};

use definitions::{Base, Figures, Range, Security};
use ladder::Ladder;

// A price has 32 bits and a number of shares 16.
fn product(price: u32, shares: u32) -> u64
    requires { shares ≤ max_shares }
    ensures { (result ≡ price * shares) × (result < 2 ^ 48) }
{
    u64::from(price) * u64::from(shares)
}

// "((prior close − dividend) × old + subscription × new) / (old + new)"
fn adjusted(close: u32, f: Figures) -> Base
    requires { settable close f ≡ true }
    ensures { result ≡ adjusted close f }
{
    let left = product(close - f.dividend, f.old_shares);
    let paid = product(f.subscription, f.new_shares);
    Base {
        numerator: left + paid,
        denominator: u64::from(f.old_shares + f.new_shares),
    }
}

fn not_above(b: Base, close: u32) -> bool
    requires { b.denominator ≤ 131_070 }
    ensures { result ≡ not_above b close }
{
    b.numerator <= u64::from(close) * b.denominator
}

// "The base is the smaller of the prior close and ..; without kind 9 figures it is the prior close."
#[tactic(auto, unfolding(definitions::specs::Ranges::base_of))]
fn base_of(close: u32, f: Figures) -> Base
    requires { sound_figures close f ≡ true }
    ensures { result ≡ base_of close f }
{
    let whole = Base {
        numerator: u64::from(close),
        denominator: 1,
    };
    if f.old_shares == 0 {
        return whole;
    }
    let other = adjusted(close, f);
    if !not_above(other, close) {
        return whole;
    }
    other
}

// "Ceiling is 130% of the base, down to a legal price and at most 10,000,000", "at least 1"
#[tactic(auto, unfolding(definitions::specs::Ranges::ceiling_of))]
fn ceiling_of(b: Base) -> u32
    requires { Bounded b }
    ensures { result ≡ ceiling_of b }
{
    let whole = 130 * b.numerator / (100 * b.denominator);
    let most = whole.min(u64::from(Ladder::LAST_PRICE));
    Ladder::legal_down(most as u32).max(1)
}

// "floor is 70%, up to one"
#[tactic(auto, using(crate::proofs::Laws::floor_found))]
fn floor_of(b: Base) -> u32
    requires { Bounded b }
    ensures { result ≡ floor_of b }
{
    let whole = (70 * b.numerator).div_ceil(100 * b.denominator);
    Ladder::legal_up(whole as u32)
}

// "With a prior close below 1.00 baht the floor is 0.01 and the ceiling twice the prior close."
#[tactic(auto, using(crate::proofs::Laws::base_bounded), unfolding(definitions::specs::Ranges::range_of))]
pub fn range_of(close: u32, f: Figures) -> Range
    requires { (sound_figures close f ≡ true) × (close ≤ last_price) }
    ensures { result ≡ range_of close f }
{
    if close < 100 {
        return Range {
            floor: 1,
            ceiling: 2 * close,
        };
    }
    let base = base_of(close, f);
    Range {
        floor: floor_of(base),
        ceiling: ceiling_of(base),
    }
}

// A legal price is held against 70% and 130% themselves: what lies between one of them and the legal price beside it is not legal, so neither is looked for.
fn outside_base(b: Base, price: u32) -> bool
    requires { Bounded b × (legal price ≡ true) }
    ensures { result ≡ outside_range (range (floor_of b) (ceiling_of b)) price }
{
    let at = u64::from(price) * (100 * b.denominator);
    (at < 70 * b.numerator) | ((1 < price) & (130 * b.numerator < at))
}

#[tactic(auto, using(crate::proofs::Laws::base_bounded), unfolding(definitions::specs::Ranges::range_of))]
pub fn outside_range(close: u32, f: Figures, price: u32) -> bool
    requires { (sound_figures close f ≡ true) × (close ≤ last_price) × (legal price ≡ true) }
    ensures { result ≡ outside_range (range_of close f) price }
{
    if close < 100 {
        return (price < 1) | (2 * close < price);
    }
    outside_base(base_of(close, f), price)
}

// "For securities that are not free and have a prior close"
pub fn has_range(s: Security) -> bool
    ensures { result ≡ has_range s }
{
    (s.terms.free != 1) & (s.prior.close != 0)
}
