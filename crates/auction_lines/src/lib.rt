// Paper 02, 5 to 7: one order, one line, and two lines held against each other. Nothing here is handed a list, only how long lists are, how many orders are held and which place has its turn.
#![tactic(auto)]

ghost use Rattle.std.specs.Prelude.{◌≡◌, ℕ, cond, ◌&&◌, ◌||◌, ◌+◌, ◌<◌, ◌^◌, eqb};
ghost use Rattle.ladder.specs.Ladder.{legal};
ghost use Rattle.auction_definitions.specs.Answers.{answered, answered_by};
ghost use Rattle.auction_definitions.specs.Auction.{auction_numbers, bad_order, beats, difference_of, distance_to, empty_line, lists_fit, volume_of};
ghost use Rattle.auction_definitions.specs.Current.{add_fits, is_refused, take_fits, zero_order};
ghost use Rattle.auction_lines.specs.Lines.{answer_of, better_of, place_refused, with_order};

use auction_definitions::{
    AuctionAnswer, AuctionNumbers, AuctionOrder, AuctionPrice, AuctionRefusal, Line, MAX_ORDERS,
};
use definitions::codes::{BUY, MAX_VOLUME, SELL};
use ladder::Ladder;

pub fn lists_fit(orders: usize, buyers: usize, sellers: usize) -> bool
    ensures { result ≡ lists_fit orders buyers sellers }
{
    (orders <= MAX_ORDERS) & (MAX_ORDERS <= buyers) & (MAX_ORDERS <= sellers)
}

// Paper 02, 7: an order more fits the list and its scratch list.
pub fn add_fits(count: usize, places: usize, volumes: usize) -> bool
    ensures { result ≡ add_fits count places volumes }
{
    (count < places) & (count < MAX_ORDERS) & (MAX_ORDERS <= volumes)
}

// Paper 02, 7: what is held fits the list and its scratch list.
pub fn take_fits(count: usize, places: usize, volumes: usize) -> bool
    ensures { result ≡ take_fits count places volumes }
{
    (count <= places) & (count <= MAX_ORDERS) & (MAX_ORDERS <= volumes)
}

fn price_or_none(price: u32) -> bool
    ensures { result ≡ (eqb price 0 || legal price) }
{
    price == 0 || Ladder::legal(price)
}

#[tactic(auto, unfolding(auction_definitions::specs::Auction::bad_order))]
pub fn bad_order(order: AuctionOrder) -> bool
    ensures { result ≡ bad_order order }
{
    SELL < order.side || !price_or_none(order.price) || !(1..=MAX_VOLUME).contains(&order.volume)
}

// The first place's turn passes every order; the turns after it ask nothing again.
pub fn bad_at_first(place: usize, order: AuctionOrder) -> bool
    ensures { result ≡ (eqb place 0 && bad_order order) }
{
    place == 0 && bad_order(order)
}

pub fn empty_line(price: u32) -> Line
    ensures { result ≡ empty_line price }
{
    Line {
        price,
        ..Line::default()
    }
}

fn added(counted: bool, sum: u64, volume: u32) -> u64
    requires { sum < 2 ^ 63 }
    ensures { result ≡ sum + cond counted volume 0 }
{
    if counted {
        sum + u64::from(volume)
    } else {
        sum
    }
}

// The side is asked by a branch, and the price without one: docs/BENCHMARKS.md has this form's time and others'.
pub fn with_order(line: Line, order: AuctionOrder) -> Line
    requires { (line.buyers < 2 ^ 63) × (line.sellers < 2 ^ 63) }
    ensures { result ≡ with_order line order }
{
    let price = line.price;
    let limit = order.price;
    let candidate = price != 0;
    if order.side == BUY {
        let bought = candidate & ((limit == 0) | (price <= limit));
        return Line {
            buyers: added(bought, line.buyers, order.volume),
            ..line
        };
    }
    let sold = candidate & ((order.side == SELL) & ((limit == 0) | (limit <= price)));
    Line {
        sellers: added(sold, line.sellers, order.volume),
        ..line
    }
}

pub fn volume_of(line: Line) -> u64
    ensures { result ≡ volume_of line }
{
    line.buyers.min(line.sellers)
}

fn difference_of(line: Line) -> u64
    ensures { result ≡ difference_of line }
{
    line.buyers.abs_diff(line.sellers)
}

fn distance_to(reference: u32, line: Line) -> u32
    ensures { result ≡ distance_to reference line }
{
    line.price.abs_diff(reference)
}

// The request's four steps, each a test of its own: by `cmp` and `then` the loops that ask this take longer (docs/DESIGN-PASS.md).
fn beats(reference: u32, line: Line, other: Line) -> bool
    ensures { result ≡ beats reference line other }
{
    let volume = volume_of(line);
    let other_volume = volume_of(other);
    if volume != other_volume {
        return other_volume < volume;
    }
    let difference = difference_of(line);
    let other_difference = difference_of(other);
    if difference != other_difference {
        return difference < other_difference;
    }
    let distance = distance_to(reference, line);
    let other_distance = distance_to(reference, other);
    if distance != other_distance {
        return distance < other_distance;
    }
    other.price < line.price
}

pub fn better(reference: u32, line: Line, best: Line) -> Line
    ensures { result ≡ better_of reference line best }
{
    if beats(reference, line, best) {
        line
    } else {
        best
    }
}

// The answer after the two loops, of the best line that they found; none where they met a bad order.
#[tactic(auto, unfolding(crate::specs::Lines::answer_of))]
pub fn answer_of(best: Option<Line>) -> AuctionAnswer
    ensures { answered result ≡ answer_of best }
{
    let best = best.ok_or(AuctionRefusal::BadOrder)?;
    let given = AuctionPrice {
        price: best.price,
        volume: volume_of(best),
    };
    Ok((given.volume != 0).then_some(given))
}

// Paper 02, 7: a place at or beyond the count is refused last.
pub fn place_refused(bad: bool) -> AuctionRefusal
    ensures { answered (Err result) ≡ place_refused bad }
{
    if bad {
        AuctionRefusal::BadOrder
    } else {
        AuctionRefusal::Place
    }
}

// Whatever refuses, and whether or not it has a number.
pub fn is_refused<R: Drop>(answer: Result<Option<AuctionPrice>, R>) -> bool
    ensures { (number : R → ℕ) → result ≡ is_refused (answered_by number answer) }
{
    answer.is_err()
}

pub fn zero_order() -> AuctionOrder
    ensures { result ≡ zero_order }
{
    AuctionOrder::default()
}

// Whatever has a number may refuse: a refusal of the auction, or any u32 that a caller has in its place.
pub fn numbers_of<R: Into<u32>>(answer: Result<Option<AuctionPrice>, R>) -> AuctionNumbers
    ensures { (number : _) → ((r : _) (n : _) → R.converts r n → n ≡ number r) → result ≡ auction_numbers (answered_by number answer) }
{
    match answer {
        Ok(Some(AuctionPrice { price, volume })) => AuctionNumbers {
            volume,
            price,
            refusal: 0,
        },
        Ok(None) => AuctionNumbers::default(),
        Err(refusal) => AuctionNumbers {
            refusal: refusal.into(),
            ..AuctionNumbers::default()
        },
    }
}
