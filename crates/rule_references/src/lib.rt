// What the rules read of a session, a security and an order: the auction sessions, the best price opposite, the reference prices and the value.
// 0 is an absent price.
#![tactic(auto)]

ghost use Rattle.std.specs.Prelude.{◌≡◌};
ghost use Rattle.definitions.specs.Codes.{in_auction};
ghost use Rattle.definitions.specs.Rules.{or_else, value_of, best_opposite, main_last_sale, first_day_ipo, reference_q, reference30, reference10};

use definitions::codes::{BUY, FOREIGN_BOARD, PRE_CLOSE, PRE_OPEN};
use definitions::{Order, Prices, Security};
use securities::prices_on;

// "sessions 1 and 4"
pub fn in_auction(session: u32) -> bool
    ensures { result ≡ in_auction session }
{
    (session == PRE_OPEN) | (session == PRE_CLOSE)
}

// In satang: the product of two numbers of 32 bits never wraps in 64.
pub fn value_of(o: Order) -> u64
    ensures { result ≡ value_of o }
{
    u64::from(o.price) * u64::from(o.volume)
}

fn or_else(a: u32, b: u32) -> u32
    ensures { result ≡ or_else a b }
{
    if a == 0 { b } else { a }
}

// The offer for a buy, the bid for a sell.
pub fn best_opposite(p: Prices, side: u32) -> u32
    ensures { result ≡ best_opposite p side }
{
    if side == BUY { p.offer } else { p.bid }
}

// "on the foreign board else the main board's last sale"
fn main_last_sale(s: Security, board: u32) -> u32
    ensures { result ≡ main_last_sale s board }
{
    if board == FOREIGN_BOARD {
        s.main.last_sale
    } else {
        0
    }
}

// "the IPO price if first day and not 0"
fn first_day_ipo(s: Security) -> u32
    ensures { result ≡ first_day_ipo s }
{
    if s.terms.first_day == 1 {
        s.prior.ipo
    } else {
        0
    }
}

pub fn reference_q(s: Security, board: u32) -> u32
    ensures { result ≡ reference_q s board }
{
    let p = prices_on(s, board);
    or_else(
        p.projected,
        or_else(
            p.last_sale,
            or_else(main_last_sale(s, board), first_day_ipo(s)),
        ),
    )
}

pub fn reference_30(s: Security, board: u32) -> u32
    ensures { result ≡ reference30 s board }
{
    let p = prices_on(s, board);
    or_else(p.last_sale, main_last_sale(s, board))
}

pub fn reference_10(s: Security) -> u32
    ensures { result ≡ reference10 s }
{
    or_else(s.main.projected, or_else(s.main.last_sale, s.prior.close))
}
