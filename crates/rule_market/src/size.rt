// Rule V: the volume and the value of an order.
ghost use Rattle.std.specs.Prelude.{◌≡◌, ◌%◌};
ghost use Rattle.definitions.specs.Rules.{rule_v};

use definitions::codes::{LIMIT, MAX_VOLUME};
use definitions::{MarketView, Order};
use rule_references::value_of;

// A security may be lent with any lot: the remainder by 0 is the volume itself, as antt has it.
fn remainder(volume: u32, lot: u32) -> u32
    ensures { result ≡ volume % lot }
{
    if lot == 0 {
        return volume;
    }
    volume % lot
}

pub fn rule_v(m: MarketView, o: Order) -> bool
    ensures { result ≡ rule_v m o }
{
    let rest = remainder(o.volume, m.security.terms.lot);
    let value = value_of(o);
    (o.volume == 0)
        | (MAX_VOLUME < o.volume)
        | !(rest == 0)
        | ((o.order_type == LIMIT) & (50_000_000_000 < value))
}
