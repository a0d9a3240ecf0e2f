// Paper 02, 7: "The list is lent with its count": orders at the first places of a lent list, one put in or taken out among them, and what stands behind them cleared.
#![tactic(auto)]

ghost use Rattle.std.specs.Prelude.{◌≡◌, ◌-◌, ◌<◌, ◌≤◌, get_or, length};
ghost use Rattle.definitions.specs.Lists.{any};
ghost use Rattle.auction_definitions.specs.Auction.{bad_order};
ghost use Rattle.auction_definitions.specs.Current.{zero_order};
ghost use Rattle.auction_list.specs.Gaps.{gap_closed, gap_opened, zero_from};

use auction_definitions::AuctionOrder;

pub fn any_bad(orders: &[AuctionOrder]) -> bool
    ensures { result ≡ any bad_order orders.now }
{
    orders.iter().any(|order| auction_lines::bad_order(*order))
}

// "places past the count are zero afterwards": from a place to the list's end.
pub fn clear_from(orders: &mut [AuctionOrder], place: usize)
    ensures { orders.new ≡ zero_from place orders.old }
{
    let first = place.min(orders.len());
    orders[first..].fill(auction_lines::zero_order());
}

// The order that stood at the last of the count's places is given back: it has none any more.
pub fn open_gap(
    orders: &mut [AuctionOrder],
    place: usize,
    count: usize,
    order: AuctionOrder,
) -> AuctionOrder
    requires { (place < count) × (count ≤ length orders.old) }
    ensures { (result ≡ get_or orders.old (count - 1) zero_order)
        × (orders.new ≡ gap_opened place count order orders.old) }
{
    let last = orders[count - 1];
    orders.copy_within(place..count - 1, place + 1);
    orders[place] = order;
    last
}

// "takes out the order at a given place and closes the gap": the order is given back, and the last of the count's places is zero.
pub fn close_gap(orders: &mut [AuctionOrder], place: usize, count: usize) -> AuctionOrder
    requires { (place < count) × (count ≤ length orders.old) }
    ensures { (result ≡ get_or orders.old place zero_order)
        × (orders.new ≡ gap_closed place count orders.old) }
{
    let taken = orders[place];
    orders.copy_within(place + 1..count, place);
    orders[count - 1] = auction_lines::zero_order();
    taken
}
