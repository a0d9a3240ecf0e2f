// Rules Q and warn 30: percentages of a reference price, for a security with no ceiling and floor.
ghost use Rattle.std.specs.Prelude.{◌≡◌};
ghost use Rattle.definitions.specs.Rules.{outside, rule_q, warn30};

use definitions::codes::{LIMIT, OPENED};
use definitions::{MarketView, Order};
use rule_references::{in_auction, reference_30, reference_q};

// In 64 bits, where no price makes a product wrap.
fn outside(low: u32, high: u32, reference: u32, price: u32) -> bool
    ensures { result ≡ outside low high reference price }
{
    let from = u64::from(reference);
    let to = u64::from(price);
    (reference != 0) & ((u64::from(high) * from < 100 * to) | (100 * to < u64::from(low) * from))
}

pub fn rule_q(m: MarketView, o: Order) -> bool
    ensures { result ≡ rule_q m o }
{
    let auction = in_auction(m.session);
    let out = outside(50, 150, reference_q(m.security, o.board), o.price);
    (o.order_type == LIMIT) & auction & (m.security.terms.free == 1) & out
}

pub fn warn_30(m: MarketView, o: Order) -> bool
    ensures { result ≡ warn30 m o }
{
    let out = outside(70, 130, reference_30(m.security, o.board), o.price);
    (o.order_type == LIMIT) & (m.session == OPENED) & (m.security.terms.free == 1) & out
}
