// What a user links: the gate and the ladder under C's calling convention. Answers are numbers (crates/definitions/specs/Answers.antt).
#![tactic(auto)]

ghost use Rattle.std.specs.Prelude.{◌≡◌, length, take};
ghost use Rattle.ladder.specs.Ladder.{lower_number, nearest_to, position_of, position_number, price_at, upper_number};
ghost use Rattle.definitions.specs.Answers.{answer_number};
ghost use Rattle.definitions.specs.Gate.{answer_of, ceiling_number, daily_range, floor_number, words_of, outcome, made};
ghost use Rattle.definitions.specs.Walk.{split};
ghost use Rattle.histories.specs.Ran.{Ran, cut};
ghost use Rattle.auction_definitions.specs.Auction.{auction, auction_numbers, buyers_after, sellers_after};
ghost use Rattle.auction_definitions.specs.Volumes.{auction_in_one, volumes_after};
ghost use Rattle.auction_definitions.specs.Current.{Add, Take, call_answer, lent, lent_after};
ghost use Rattle.guvontsira.specs.Version.{version};

use auction_definitions::{AuctionNumbers, AuctionOrder};
use ladder::Ladder;

const VERSION: u32 = 40_300;

#[unsafe(no_mangle)]
pub extern "C" fn guvontsira_make(words: &mut [u32], customers: u32, securities: u32) -> u32
    ensures { (result ≡ answer_number (answer_of (made words.old customers securities)))
        × (words.new ≡ words_of words.old (made words.old customers securities)) }
{
    gate::answer_number(gate::make(words, customers, securities))
}

#[unsafe(no_mangle)]
pub extern "C" fn guvontsira_handle(words: &mut [u32], event: &[u8]) -> u32
    ensures { (result ≡ answer_number (answer_of (outcome words.old event.now)))
        × (words.new ≡ words_of words.old (outcome words.old event.now)) }
{
    gate::answer_number(gate::handle(words, event))
}

#[unsafe(no_mangle)]
pub extern "C" fn guvontsira_run(words: &mut [u32], events: &[u8], answers: &mut [u32]) -> usize
    ensures { Ran words.old (split (length answers.old) events.now) answers.old result words.new answers.new }
{
    histories::run(words, events, answers)
}

#[unsafe(no_mangle)]
pub extern "C" fn guvontsira_run_list(
    words: &mut [u32],
    events: &[u8],
    lengths: &[usize],
    answers: &mut [u32],
) -> usize
    ensures { Ran words.old (cut (take (length answers.old) lengths.now) events.now) answers.old result words.new answers.new }
{
    histories::run_list(words, events, lengths, answers)
}

// The day's floor of a security; 0 where it has no range.
#[unsafe(no_mangle)]
pub extern "C" fn guvontsira_floor(words: &[u32], security: u32) -> u32
    ensures { result ≡ floor_number (daily_range words.now security) }
{
    gate::floor_number(gate::daily_range(words, security))
}

// The day's ceiling of a security; 0 where it has no range.
#[unsafe(no_mangle)]
pub extern "C" fn guvontsira_ceiling(words: &[u32], security: u32) -> u32
    ensures { result ≡ ceiling_number (daily_range words.now security) }
{
    gate::ceiling_number(gate::daily_range(words, security))
}

// 0 for a price off the ladder.
#[unsafe(no_mangle)]
pub extern "C" fn guvontsira_position(price: u32) -> u32
    ensures { result ≡ position_number (position_of price) }
{
    Ladder::position_number(Ladder::position(price))
}

// The nearest position at or below; 0 for a number that is no price.
#[unsafe(no_mangle)]
pub extern "C" fn guvontsira_lower_position(price: u32) -> u32
    ensures { result ≡ lower_number (nearest_to price) }
{
    Ladder::lower_number(Ladder::nearest(price))
}

// The nearest position at or above; 0 for a number that is no price.
#[unsafe(no_mangle)]
pub extern "C" fn guvontsira_upper_position(price: u32) -> u32
    ensures { result ≡ upper_number (nearest_to price) }
{
    Ladder::upper_number(Ladder::nearest(price))
}

// 0 for a number that is no position.
#[unsafe(no_mangle)]
pub extern "C" fn guvontsira_price(position: u32) -> u32
    ensures { result ≡ price_at position }
{
    Ladder::price(position)
}

// The price an auction would give, with the answer as its numbers.
#[unsafe(no_mangle)]
pub extern "C" fn guvontsira_auction(
    orders: &[AuctionOrder],
    reference: u32,
    buyers: &mut [u64],
    sellers: &mut [u64],
) -> AuctionNumbers
    ensures { (result ≡ auction_numbers (auction orders.now reference buyers.old sellers.old))
        × (buyers.new ≡ buyers_after orders.now buyers.old sellers.old)
        × (sellers.new ≡ sellers_after orders.now buyers.old sellers.old) }
{
    auction_lines::numbers_of(auction::price(orders, reference, buyers, sellers))
}

// The same with one scratch list, which holds volumes afterwards.
#[unsafe(no_mangle)]
pub extern "C" fn guvontsira_auction_volumes(
    orders: &[AuctionOrder],
    reference: u32,
    volumes: &mut [u64],
) -> AuctionNumbers
    ensures { (result ≡ auction_numbers (auction_in_one orders.now reference volumes.old))
        × (volumes.new ≡ volumes_after orders.now volumes.old) }
{
    auction_lines::numbers_of(auction::volumes::price_and_volumes(orders, reference, volumes))
}

// The price kept current: an order is added at the end of those held.
#[unsafe(no_mangle)]
pub extern "C" fn guvontsira_auction_add(
    orders: &mut [AuctionOrder],
    count: &mut usize,
    order: AuctionOrder,
    reference: u32,
    volumes: &mut [u64],
) -> AuctionNumbers
    ensures { (result ≡ auction_numbers (call_answer (Add order) reference (lent orders.old count.old volumes.old)))
        × (lent orders.new count.new volumes.new ≡ lent_after (Add order) (lent orders.old count.old volumes.old)) }
{
    auction_lines::numbers_of(auction_current::add(orders, count, order, reference, volumes))
}

// The same: the order at a place is taken out.
#[unsafe(no_mangle)]
pub extern "C" fn guvontsira_auction_take(
    orders: &mut [AuctionOrder],
    count: &mut usize,
    place: usize,
    reference: u32,
    volumes: &mut [u64],
) -> AuctionNumbers
    ensures { (result ≡ auction_numbers (call_answer (Take place) reference (lent orders.old count.old volumes.old)))
        × (lent orders.new count.new volumes.new ≡ lent_after (Take place) (lent orders.old count.old volumes.old)) }
{
    auction_lines::numbers_of(auction_current::take(orders, count, place, reference, volumes))
}

// A caller whose header has another number was built for another release.
#[unsafe(no_mangle)]
pub extern "C" fn guvontsira_version() -> u32
    ensures { result ≡ version }
{
    VERSION
}
