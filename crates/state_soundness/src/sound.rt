// Paper 01: "A record is sound if: ..".
ghost use Rattle.std.specs.Prelude.{◌≡◌, ◌+◌, ◌≤◌, length};
ghost use Rattle.definitions.specs.Gate.{sound_security_at};
ghost use Rattle.definitions.specs.Sound.{priced_as, open_or_cancelled, sound_marked};
ghost use Rattle.definitions.specs.State.{security_size, security_place};

use definitions::Row;
use definitions::codes::{CANCELLED_MARK, FOREIGN_BOARD, LIMIT, MAX_VOLUME, MP, OPEN_MARK, SELL};
use ladder::Ladder;
use securities::sound_security;
use state_records::security_at;

// One function, so that the test of a security's words is compiled once.
pub fn sound_security_at(words: &[u32], s: u32) -> bool
    requires { security_place s + security_size ≤ length words.now }
    ensures { result ≡ sound_security_at words.now s }
{
    sound_security(security_at(words, s))
}

pub fn priced_as(order_type: u32, price: u32) -> bool
    ensures { result ≡ priced_as order_type price }
{
    if order_type == LIMIT {
        return Ladder::legal(price);
    }
    price == 0
}

// Joined without a branch: which rows of a desk are open and which cancelled follows no pattern that a processor could guess.
fn open_or_cancelled(clock: u32, r: Row) -> bool
    ensures { result ≡ open_or_cancelled clock r }
{
    ((r.mark == OPEN_MARK) & (r.cancel_time == 0))
        | ((r.mark == CANCELLED_MARK) & (r.cancel_time <= clock) & (r.order_type == LIMIT))
}

// A free row, where the marked rows end, fails the first test, and no other is made.
pub fn sound_marked(securities: u32, clock: u32, r: Row) -> bool
    ensures { result ≡ sound_marked securities clock r }
{
    open_or_cancelled(clock, r)
        && (0 < r.number)
        && (r.security < securities)
        && ((r.board <= FOREIGN_BOARD) & (r.side <= SELL))
        && (r.order_type <= MP)
        && priced_as(r.order_type, r.price)
        && ((1 <= r.volume) & (r.volume <= MAX_VOLUME))
}
