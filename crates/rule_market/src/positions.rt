// Warn 10: ladder positions about a reference price.
ghost use Rattle.std.specs.Prelude.{◌≡◌, ◌+◌, ◌-◌, min};
ghost use Rattle.ladder.specs.Bands.{positions};
ghost use Rattle.ladder.specs.Ladder.{nearest_to, position_of, position_number, price_at};
ghost use Rattle.definitions.specs.Rules.{covered_by10, ten_apart, warn10};

use definitions::codes::{DMA, LIMIT, MAIN_BOARD, ONLINE};
use definitions::{MarketView, Order};
use ladder::Ladder;
use rule_references::{in_auction, reference_10};

// 0, which is no position, where the ladder begins less than ten below.
fn ten_down(position: u32) -> u32
    ensures { result ≡ position - 10 }
{
    position.saturating_sub(10)
}

// The last position, where the ladder ends less than ten above.
fn ten_up(position: u32) -> u32
    ensures { result ≡ min (position + 10) positions }
{
    position.saturating_add(10).min(Ladder::POSITIONS)
}

// Position 0 has the absent price, and so has a price off the ladder.
fn on_ladder(price: u32) -> u32
    ensures { result ≡ price_at (position_number (position_of price)) }
{
    if !Ladder::legal(price) {
        return 0;
    }
    price
}

// Prices stand in the order of their positions: more than ten positions up is above the price that the ladder has there.
// "Warn 10 counts up from the lower and down from the upper position."
fn ten_apart(reference: u32, price: u32) -> bool
    ensures { result ≡ ten_apart (nearest_to reference) (position_number (position_of price)) }
{
    let Some(from) = Ladder::nearest(reference) else {
        return false;
    };
    let range = Ladder::prices(ten_down(from.upper), ten_up(from.lower));
    let to = on_ladder(price);
    (range.high < to) | (to < range.low)
}

fn covered_by_10(session: u32, o: Order) -> bool
    ensures { result ≡ covered_by10 session o }
{
    let auction = in_auction(session);
    (o.order_type == LIMIT)
        & (o.board == MAIN_BOARD)
        & auction
        & ((o.channel == ONLINE) | (o.channel == DMA))
}

// The ladder is asked only of an order that the rule covers.
pub fn warn_10(m: MarketView, o: Order) -> bool
    ensures { result ≡ warn10 m o }
{
    if !covered_by_10(m.session, o) {
        return false;
    }
    ten_apart(reference_10(m.security), o.price)
}
