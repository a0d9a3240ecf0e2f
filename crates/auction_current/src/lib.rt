// Paper 02, 7: "Auction price kept current". Unless the count, a length, the place or the order at it is refused before, both calls change the list, have the price worked out by request 6's call, and put back what they changed where that refuses: an order is asked once.
#![tactic(auto)]

ghost use Rattle.std.specs.Prelude.{◌≡◌, cond, ◌≤◌, eqb, length, take};
ghost use Rattle.auction_definitions.specs.Answers.{answered};
ghost use Rattle.auction_definitions.specs.Auction.{refusal};
ghost use Rattle.auction_definitions.specs.Volumes.{auction_in_one, volumes_after};
ghost use Rattle.auction_definitions.specs.Current.{Add, Take, call_answer, lent, lent_after};
ghost use Rattle.auction_list.specs.Gaps.{zero_from};

use auction_definitions::{AuctionAnswer, AuctionOrder, AuctionRefusal};

// "answer and scratch are request 6's, worked out afresh from the list", of the orders held; where they are not refused, they are counted, and what stands behind them is cleared.
fn price_held(
    orders: &mut [AuctionOrder],
    count: &mut usize,
    held: usize,
    reference: u32,
    volumes: &mut [u64],
) -> AuctionAnswer
    requires { held ≤ length orders.old }
    ensures { (answered result ≡ auction_in_one (take held orders.old) reference volumes.old)
        × (orders.new ≡ cond (eqb (refusal (take held orders.old) volumes.old volumes.old) 0) (zero_from held orders.old) orders.old)
        × (count.new ≡ cond (eqb (refusal (take held orders.old) volumes.old volumes.old) 0) held count.old)
        × (volumes.new ≡ volumes_after (take held orders.old) volumes.old) }
{
    let price = auction::volumes::price_and_volumes(&orders[..held], reference, volumes)?;
    auction_list::clear_from(orders, held);
    *count = held;
    Ok(price)
}

// "one adds an order at the end"
pub fn add(
    orders: &mut [AuctionOrder],
    count: &mut usize,
    order: AuctionOrder,
    reference: u32,
    volumes: &mut [u64],
) -> AuctionAnswer
    ensures { (answered result ≡ call_answer (Add order) reference (lent orders.old count.old volumes.old))
        × (lent orders.new count.new volumes.new ≡ lent_after (Add order) (lent orders.old count.old volumes.old)) }
{
    let held = *count;
    if !auction_lines::add_fits(held, orders.len(), volumes.len()) {
        return Err(AuctionRefusal::Lists);
    }
    let more = held + 1;
    let before = auction_list::open_gap(orders, held, more, order);
    let answer = price_held(orders, count, more, reference, volumes);
    if auction_lines::is_refused(answer) {
        auction_list::open_gap(orders, held, more, before);
    }
    answer
}

// "one takes out the order at a given place and closes the gap"
pub fn take(
    orders: &mut [AuctionOrder],
    count: &mut usize,
    place: usize,
    reference: u32,
    volumes: &mut [u64],
) -> AuctionAnswer
    ensures { (answered result ≡ call_answer (Take place) reference (lent orders.old count.old volumes.old))
        × (lent orders.new count.new volumes.new ≡ lent_after (Take place) (lent orders.old count.old volumes.old)) }
{
    let held = *count;
    if !auction_lines::take_fits(held, orders.len(), volumes.len()) {
        return Err(AuctionRefusal::Lists);
    }
    if held <= place {
        let bad = auction_list::any_bad(&orders[..held]);
        return Err(auction_lines::place_refused(bad));
    }
    if auction_lines::bad_order(orders[place]) {
        return Err(AuctionRefusal::BadOrder);
    }
    let fewer = held - 1;
    let taken = auction_list::close_gap(orders, place, held);
    let answer = price_held(orders, count, fewer, reference, volumes);
    if auction_lines::is_refused(answer) {
        auction_list::open_gap(orders, place, held, taken);
    }
    answer
}
