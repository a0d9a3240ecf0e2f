// Rule C: the day's ceiling and floor.
ghost use Rattle.std.specs.Prelude.{true, ◌≡◌};
ghost use Rattle.definitions.specs.Sound.{priced_as, sound_security};
ghost use Rattle.definitions.specs.Rules.{covered_by_c, rule_c};

use definitions::codes::{LIMIT, MAIN_BOARD};
use definitions::{MarketView, Order, Security};

fn covered_by_c(s: Security, o: Order) -> bool
    ensures { result ≡ covered_by_c s o }
{
    (o.order_type == LIMIT) & (o.board == MAIN_BOARD) & ranges::has_range(s)
}

// The range is asked only of an order that the rule covers.
pub fn rule_c(m: MarketView, o: Order) -> bool
    requires { (sound_security m.security ≡ true) × (priced_as o.order_type o.price ≡ true) }
    ensures { result ≡ rule_c m o }
{
    if !covered_by_c(m.security, o) {
        return false;
    }
    ranges::outside_range(m.security.prior.close, m.security.figures, o.price)
}
