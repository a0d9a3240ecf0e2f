// Paper 02, 6: "Half the scratch for the auction". The loops and the label are those of `best_line`, as in `price`; what a place is given is the volume of its line.
ghost use Rattle.std.specs.Prelude.{◌≡◌, length};
ghost use Rattle.std.proofs.Common.{rules};
ghost use Rattle.auction_definitions.specs.Answers.{answered};
ghost use Rattle.auction_definitions.specs.Volumes.{auction_in_one, volumes_after};
ghost use Rattle.auction.specs.Scratch.{with_volume};

use super::{Scratch, best_line};
use auction_definitions::{AuctionAnswer, AuctionOrder, AuctionRefusal, Line};

#[derive(Drop)]
struct Volumes<'a>(&'a mut [u64]);

impl Scratch for Volumes<'_> {
    ghost places = { λ s. length s.0.now };

    ghost stored = { with_volume };

    ghost as_long = { Prim.search rules };

    fn store(&mut self, place: usize, line: Line) {
        self.0[place] = auction_lines::volume_of(line);
    }
}

// What stands behind the orders is cleared last, "0 elsewhere": a bad order leaves the list as it was.
pub fn price_and_volumes(
    orders: &[AuctionOrder],
    reference: u32,
    volumes: &mut [u64],
) -> AuctionAnswer
    ensures { (answered result ≡ auction_in_one orders.now reference volumes.old)
        × (volumes.new ≡ volumes_after orders.now volumes.old) }
{
    let count = orders.len();
    if !auction_lines::lists_fit(count, volumes.len(), volumes.len()) {
        return Err(AuctionRefusal::Lists);
    }
    let best = best_line(&mut Volumes(volumes), orders, reference);
    if best.is_some() {
        volumes[count..].fill(0);
    }
    auction_lines::answer_of(best)
}
