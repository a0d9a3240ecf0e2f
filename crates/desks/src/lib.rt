// Paper 01, "Events" and "The lone run", and paper 02, 1: how a desk changes, and what condition 12 asks of it.
#![tactic(auto)]

ghost use Rattle.std.specs.Prelude.{◌≡◌, ◌<◌, eqb, replicate};
ghost use Rattle.definitions.specs.Codes.{desk_rows};
ghost use Rattle.definitions.specs.Desks.{added, added_last, changed, close_up, edited, expired_row, free_row, open_or_in_minute, session_row, with_rows};
ghost use Rattle.definitions.specs.Lists.{count};
ghost use Rattle.definitions.specs.Sound.{marked};
ghost use Rattle.desks.specs.Place.{changed_at, removed_at};

use definitions::codes::DESK_ROWS;
use definitions::{Desk, Order, Row};
use desk_rows::{expired_row, free_row, open_or_in_minute, row_of_order, session_row};

// "removes the desk's ATO and ATC rows", and those of type 3
pub fn session_changed(d: Desk) -> Desk
    ensures { result ≡ changed session_row d }
{
    let mut closed = emptied(d);
    closed_up(d, session_row, &mut closed);
    closed
}

// The row at a place as an event leaves it: a row that it makes free goes, and the others close up.
pub fn changed_at(place: usize, left: Row, d: Desk) -> Desk
    requires { (place < desk_rows) × (close_up d.rows ≡ d.rows) }
    ensures { result ≡ with_rows (changed_at place left d.rows) d }
{
    if left.mark == 0 {
        return removed(place, d);
    }
    let mut after = d;
    after.rows[place] = left;
    after
}

// "Rows close up where one goes": from the place on each row is the next one, up to the first free row.
fn removed(place: usize, d: Desk) -> Desk
    requires { (place < desk_rows) × (close_up d.rows ≡ d.rows) }
    ensures { result ≡ with_rows (removed_at place d.rows) d }
{
    let mut after = d;
    for i in place..DESK_ROWS - 1 {
        let next = after.rows[i + 1];
        after.rows[i] = next;
        if next.mark == 0 {
            return after;
        }
    }
    after.rows[DESK_ROWS - 1] = free_row();
    after
}

// "rows cancelled more than 60,000 ms ago go, then the order stands last as an open row". Mostly none goes, and the order takes the first free row.
pub fn added(clock: u32, o: Order, d: Desk) -> Desk
    requires { close_up d.rows ≡ d.rows }
    ensures { result ≡ added clock o d }
{
    let last = row_of_order(o);
    let mut after = d;
    for place in 0..DESK_ROWS {
        let row = after.rows[place];
        if row.mark == 0 {
            after.rows[place] = last;
            return after;
        }
        if !open_or_in_minute(clock, row) {
            return added_last(clock, last, after);
        }
    }
    after
}

// The same where a row was cancelled more than 60,000 ms ago.
fn added_last(clock: u32, last: Row, d: Desk) -> Desk
    ensures { result ≡ with_rows (added_last last (edited (expired_row clock) d.rows)) d }
{
    let mut closed = emptied(d);
    let place = closed_up(d, |row| expired_row(clock, row), &mut closed);
    // Refusal 12 keeps an order from a full desk, which would stay as it is.
    if place < DESK_ROWS {
        closed.rows[place] = last;
    }
    closed
}

// Each row as an event leaves it, put on an emptied desk: those that it makes free go, and the others close up. Given is the place behind them. The desk is
// lent: given beside the place, it was copied once more, and the archive needed `memcpy` for that.
fn closed_up<F: Fn(Row) -> Row>(d: Desk, becomes: F, closed: &mut Desk) -> usize
    requires callable { F.IsAlwaysCallable becomes }
    requires empty { closed.old ≡ with_rows (replicate desk_rows free_row) d }
    ensures { (f : _) → ((r : _) (left : _) → F.post becomes r left → left ≡ f r) → (closed.new ≡ changed f d) × (result ≡ count marked closed.new.rows) }
{
    let mut n: usize = 0;
    for row in d.rows {
        let left = becomes(row);
        if left.mark != 0 {
            closed.rows[n] = left;
            n += 1;
        }
    }
    n
}

// 12: "open rows and rows cancelled at most 60,000 ms ago are 32", where no row of the 32 is neither.
pub fn full(clock: u32, d: Desk) -> bool
    ensures { result ≡ eqb (count (open_or_in_minute clock) d.rows) desk_rows }
{
    d.rows.iter().all(|row| open_or_in_minute(clock, *row))
}

// The desk that rows are put on one after the other, so that they close up.
fn emptied(d: Desk) -> Desk
    ensures { result ≡ with_rows (replicate desk_rows free_row) d }
{
    Desk {
        rows: [free_row(); DESK_ROWS],
        ..d
    }
}
