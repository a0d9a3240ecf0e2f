// Rule S: which order may be entered in which session.
ghost use Rattle.std.specs.Prelude.{◌≡◌};
ghost use Rattle.definitions.specs.Rules.{rule_s};

use definitions::codes::{ATC, ATO, BREAK, CLOSED, MP, OPENED, PRE_CLOSE, PRE_OPEN};
use definitions::{MarketView, Order};
use rule_references::best_opposite;
use securities::prices_on;

pub fn rule_s(m: MarketView, o: Order) -> bool
    ensures { result ≡ rule_s m o }
{
    let best = best_opposite(prices_on(m.security, o.board), o.side);
    (m.session == CLOSED)
        | (m.session == BREAK)
        | ((o.order_type == ATO) & !(m.session == PRE_OPEN))
        | ((o.order_type == ATC) & !(m.session == PRE_CLOSE))
        | ((o.order_type == MP) & !(m.session == OPENED))
        | ((o.order_type == MP) & (best == 0))
}
