// Paper 02, 5 and 6: the price an auction would give, with two scratch lists or with one. Paper 01, "Code places and their forms": "nested loops over candidates and orders; a bad entry leaves both by a
// label", and "a slice of small order structs read by the auction price, with sums done in covered functions", which are those of `auction_lines`.
#![tactic(auto)]

ghost use Rattle.std.specs.Prelude.{◌≡◌, ◌<◌, ◌≤◌, ℕ, length, min};
ghost use Rattle.std.proofs.Common.{rules};
ghost use Rattle.auction_definitions.specs.declared.Line.{Line};
ghost use Rattle.auction_definitions.specs.Answers.{answered};
ghost use Rattle.auction_definitions.specs.Auction.{auction, buyers_after, max_orders, sellers_after};
ghost use Rattle.auction.specs.Scratch.{with_sums};
ghost use Rattle.auction.specs.Turns.{Passed};

use auction_definitions::{AuctionAnswer, AuctionOrder, AuctionRefusal, Line};

pub mod volumes;

// What is lent to hold numbers of the lines, a line's at the place of its order.
trait Scratch {
    ghost places: { Self → ℕ };

    ghost stored: { Self → ℕ → Line → Self };

    fn store(&mut self, place: usize, line: Line)
        requires { place < places self.old }
        ensures { self.new ≡ stored self.old place line };

    ghost as_long: { (s : Self) (place : ℕ) (line : Line) → places (stored s place line) ≡ places s };
}

// The best line, or none where an order is bad. The first place's turn passes every order, and the first store comes after it: a bad order leaves the scratch as it was.
// Compiled into each of the two callers, and with the scratch first: so no branch of the inner loop crosses 32 bytes or ends at them, wherever the linker puts
// it. Where one did, a call took half as long again (docs/LOOK-BACK.md).
fn best_line<S: Scratch>(scratch: &mut S, orders: &[AuctionOrder], reference: u32) -> Option<Line>
    requires fits { length orders.now ≤ max_orders }
    requires room { length orders.now ≤ S.places scratch.old }
    ensures { Passed S.stored orders.now reference scratch.old scratch.new result }
{
    'candidates: {
        let mut best = auction_lines::empty_line(0);
        for (place, candidate) in orders.iter().enumerate() {
            let mut line = auction_lines::empty_line(candidate.price);
            for order in orders {
                if auction_lines::bad_at_first(place, *order) {
                    break 'candidates None;
                }
                line = auction_lines::with_order(line, *order);
            }
            scratch.store(place, line);
            best = auction_lines::better(reference, line, best);
        }
        Some(best)
    }
}

#[derive(Drop)]
struct Sums<'a> {
    buyers: &'a mut [u64],
    sellers: &'a mut [u64],
}

impl Scratch for Sums<'_> {
    ghost places = { λ s. min (length s.buyers.now) (length s.sellers.now) };

    ghost stored = { with_sums };

    ghost as_long = { Prim.search rules };

    fn store(&mut self, place: usize, line: Line) {
        self.buyers[place] = line.buyers;
        self.sellers[place] = line.sellers;
    }
}

pub fn price(
    orders: &[AuctionOrder],
    reference: u32,
    buyers: &mut [u64],
    sellers: &mut [u64],
) -> AuctionAnswer
    ensures { (answered result ≡ auction orders.now reference buyers.old sellers.old)
        × (buyers.new ≡ buyers_after orders.now buyers.old sellers.old)
        × (sellers.new ≡ sellers_after orders.now buyers.old sellers.old) }
{
    if !auction_lines::lists_fit(orders.len(), buyers.len(), sellers.len()) {
        return Err(AuctionRefusal::Lists);
    }
    let best = best_line(&mut Sums { buyers, sellers }, orders, reference);
    auction_lines::answer_of(best)
}
