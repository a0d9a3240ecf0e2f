// Paper 01, "The lent state": "the customer's three counters and 32 rows, taken out and put back as one record".
ghost use Rattle.std.specs.Prelude.{◌≡◌, ◌+◌, ◌≤◌, length};
ghost use Rattle.definitions.specs.State.{row_size, desk_size, header_of, desk_place, row_of, row_words, desk_of, desk_at, put_desk};

use definitions::codes::{COUNTERS_SIZE, DESK_ROWS, DESK_SIZE, ROW_SIZE};
use definitions::{Desk, Row};
use desk_rows::free_row;
use state::{copy_in, desk_place_in};

#[tactic(auto, unfolding(definitions::specs::State::row_of))]
pub fn row_of(words: &[u32]) -> Row
    requires { length words.now ≡ row_size }
    ensures { result ≡ row_of words.now }
{
    Row {
        mark: words[0],
        number: words[1],
        security: words[2],
        board: words[3],
        side: words[4],
        order_type: words[5],
        price: words[6],
        volume: words[7],
        cancel_time: words[8],
    }
}

// The rows are put where they stay: an array of them beside the desk would be a second copy of it.
fn desk_of(words: &[u32]) -> Desk
    requires { length words.now ≡ desk_size }
    ensures { result ≡ desk_of words.now }
{
    let mut d = Desk {
        accepted: words[0],
        warned: words[1],
        rejected: words[2],
        rows: [free_row(); DESK_ROWS],
    };
    for (i, row) in d.rows.iter_mut().enumerate() {
        let at = COUNTERS_SIZE + ROW_SIZE * i;
        *row = row_of(&words[at..at + ROW_SIZE]);
    }
    d
}

#[tactic(auto, unfolding(definitions::specs::State::desk_at, definitions::specs::Lists::part))]
pub fn desk_at(words: &[u32], k: u32) -> Desk
    requires { desk_place (header_of words.now).securities k + desk_size ≤ length words.now }
    ensures { result ≡ desk_at words.now k }
{
    let from = desk_place_in(words, k);
    desk_of(&words[from..from + DESK_SIZE])
}

#[tactic(auto, unfolding(definitions::specs::State::row_words))]
fn row_words(r: Row) -> [u32; ROW_SIZE]
    ensures { result ≡ row_words r }
{
    [
        r.mark,
        r.number,
        r.security,
        r.board,
        r.side,
        r.order_type,
        r.price,
        r.volume,
        r.cancel_time,
    ]
}

pub fn put_desk(words: &mut [u32], k: u32, d: Desk)
    requires { desk_place (header_of words.old).securities k + desk_size ≤ length words.old }
    ensures { words.new ≡ put_desk words.old k d }
{
    let at = desk_place_in(words, k);
    copy_in(words, at, &[d.accepted, d.warned, d.rejected]);
    for (i, row) in d.rows.iter().enumerate() {
        copy_in(words, at + COUNTERS_SIZE + ROW_SIZE * i, &row_words(*row));
    }
}
