// Paper 01, "Events", and paper 02, 1: what becomes of one row, and what is asked of one.
#![tactic(auto)]

ghost use Rattle.std.specs.Prelude.{◌≡◌};
ghost use Rattle.definitions.specs.Codes.{is_auction};
ghost use Rattle.definitions.specs.Desks.{cancelled_in_minute, cancelled_row, expired_row, free_row, in_minute, matched_row, open_or_in_minute, open_mp_with, open_with, rest_row, row_of_order, session_row};
ghost use Rattle.definitions.specs.Refusals.{holds_number};

use definitions::codes::{ATC, ATO, CANCELLED_MARK, LIMIT, MINUTE, MP, OPEN_MARK};
use definitions::{Order, Row};

pub fn free_row() -> Row
    ensures { result ≡ free_row }
{
    Row::default()
}

// "cancelled at most 60,000 ms ago", in 64 bits, since the sum may not fit in 32.
pub fn in_minute(clock: u32, time: u32) -> bool
    ensures { result ≡ in_minute clock time }
{
    u64::from(clock) <= u64::from(time) + MINUTE
}

fn cancelled_in_minute(clock: u32, r: Row) -> bool
    ensures { result ≡ cancelled_in_minute clock r }
{
    (r.mark == CANCELLED_MARK) & in_minute(clock, r.cancel_time)
}

// "open rows and rows cancelled at most 60,000 ms ago"
pub fn open_or_in_minute(clock: u32, r: Row) -> bool
    ensures { result ≡ open_or_in_minute clock r }
{
    (r.mark == OPEN_MARK) | cancelled_in_minute(clock, r)
}

pub fn holds_number(clock: u32, number: u32, r: Row) -> bool
    ensures { result ≡ holds_number clock number r }
{
    (r.number == number) && open_or_in_minute(clock, r)
}

pub fn open_with(number: u32, r: Row) -> bool
    ensures { result ≡ open_with number r }
{
    (r.number == number) && (r.mark == OPEN_MARK)
}

// Paper 02, 1: "an open type 3 row"
pub fn open_mp_with(number: u32, r: Row) -> bool
    ensures { result ≡ open_mp_with number r }
{
    open_with(number, r) & (r.order_type == MP)
}

// "ATO and ATC"
pub fn is_auction(order_type: u32) -> bool
    ensures { result ≡ is_auction order_type }
{
    (order_type == ATO) | (order_type == ATC)
}

// "removes the desk's ATO and ATC rows"; "Cancel and session change treat type 3 as ATO"
pub fn session_row(r: Row) -> Row
    ensures { result ≡ session_row r }
{
    if is_auction(r.order_type) | (r.order_type == MP) {
        free_row()
    } else {
        r
    }
}

// "rows cancelled more than 60,000 ms ago go"
pub fn expired_row(clock: u32, r: Row) -> Row
    ensures { result ≡ expired_row clock r }
{
    if (r.mark == CANCELLED_MARK) & !cancelled_in_minute(clock, r) {
        free_row()
    } else {
        r
    }
}

// "marks an open limit row cancelled at the clock, or removes an ATO or ATC row", and one of type 3
pub fn cancelled_row(number: u32, clock: u32, r: Row) -> Row
    ensures { result ≡ cancelled_row number clock r }
{
    if !open_with(number, r) {
        return r;
    }
    if r.order_type != LIMIT {
        return free_row();
    }
    Row {
        mark: CANCELLED_MARK,
        cancel_time: clock,
        ..r
    }
}

// "lowers the volume; at 0 the row goes"
pub fn matched_row(number: u32, volume: u32, r: Row) -> Row
    ensures { result ≡ matched_row number volume r }
{
    if !open_with(number, r) {
        return r;
    }
    if r.volume <= volume {
        return free_row();
    }
    Row {
        volume: r.volume - volume,
        ..r
    }
}

// Paper 02, 1: "It makes an open type 3 row a limit at that ladder price"
pub fn rest_row(number: u32, price: u32, r: Row) -> Row
    ensures { result ≡ rest_row number price r }
{
    if !open_mp_with(number, r) {
        return r;
    }
    Row {
        order_type: LIMIT,
        price,
        ..r
    }
}

// "then the order stands last as an open row"
pub fn row_of_order(o: Order) -> Row
    ensures { result ≡ row_of_order o }
{
    Row {
        mark: OPEN_MARK,
        number: o.number,
        security: o.security,
        board: o.board,
        side: o.side,
        order_type: o.order_type,
        price: o.price,
        volume: o.volume,
        cancel_time: 0,
    }
}
