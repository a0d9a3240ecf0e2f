// Rules W and P: an order against the customer's own rows.
#![tactic(auto)]

ghost use Rattle.std.specs.Prelude.{true, false, ◌≡◌, ◌*◌, leb};
ghost use Rattle.definitions.specs.Lists.{any};
ghost use Rattle.definitions.specs.Sound.{marked, marked_first};
ghost use Rattle.definitions.specs.Rules.{own_opposite, would_trade_at_projected, would_trade, trades_with_own, rule_w, reenters, rule_p};
ghost use Rattle.rule_rows.specs.Covered.{covered_by_p};

use definitions::codes::{
    BUY, CANCELLED_MARK, DESK_ROWS, LIMIT, MP, ONLINE, OPEN_MARK, OPENED, SELL,
};
use definitions::{Desk, MarketView, Order, Prices, Row};
use desk_rows::{in_minute, is_auction};
use rule_references::{in_auction, value_of};
use securities::prices_on;

fn own_opposite(o: Order, r: Row) -> bool
    ensures { result ≡ own_opposite o r }
{
    (r.mark == OPEN_MARK) & (r.security == o.security) & (r.board == o.board) & !(r.side == o.side)
}

// A clause for each pairing, here and below in the paper's order.
fn would_trade_at_projected(projected: u32, o: Order, r: Row) -> bool
    ensures { result ≡ would_trade_at_projected projected o r }
{
    let limit = o.order_type == LIMIT;
    let buy = o.side == BUY;
    let sell = o.side == SELL;
    let against_limit = r.order_type == LIMIT;
    let auction = is_auction(o.order_type);
    let against_auction = is_auction(r.order_type);
    (limit & buy & (projected <= o.price) & against_auction)
        | (auction & buy & against_limit & (r.price <= projected))
        | (limit & sell & (o.price <= projected) & against_auction)
        | (auction & sell & against_limit & (projected <= r.price))
}

fn would_trade(session: u32, p: Prices, o: Order, r: Row) -> bool
    ensures { result ≡ would_trade session p o r }
{
    let limit = o.order_type == LIMIT;
    let mp = o.order_type == MP;
    let buy = o.side == BUY;
    let sell = o.side == SELL;
    let against_limit = r.order_type == LIMIT;
    let auctions = is_auction(o.order_type) & is_auction(r.order_type);
    let projects = in_auction(session) & !(p.projected == 0);
    let at_projected = would_trade_at_projected(p.projected, o, r);
    (limit & buy & against_limit & (r.price <= o.price))
        | (limit & sell & against_limit & (o.price <= r.price))
        | auctions
        | (projects & at_projected)
        | (mp & buy & against_limit & (p.offer == r.price))
        | (mp & sell & against_limit & (p.bid == r.price))
}

// Few rows are open on the other side of the same security and board: of the others nothing more is tested.
fn trades_with_own(session: u32, p: Prices, o: Order, r: Row) -> bool
    ensures { result ≡ trades_with_own session p o r }
{
    if !own_opposite(o, r) {
        return false;
    }
    would_trade(session, p, o, r)
}

pub fn rule_w(m: MarketView, d: Desk, o: Order) -> bool
    requires { marked_first d.rows ≡ true }
    ensures { result ≡ rule_w (record { market = m; desk = d }) o }
{
    if o.channel != ONLINE {
        return false;
    }
    let p = prices_on(m.security, o.board);
    any_marked(&d.rows, |r| trades_with_own(m.session, p, o, r))
}

// Whether a marked row meets a test. The search ends at the first that does, and at the first free row: "marked rows stand first".
fn any_marked<F: Fn(Row) -> bool>(rows: &[Row; DESK_ROWS], meets: F) -> bool
    requires first { marked_first rows.now ≡ true }
    requires callable { F.IsAlwaysCallable meets }
    ensures { (p : _) → ((r : _) (met : _) → F.post meets r met → met ≡ p r) → ((r : _) → marked r ≡ false → p r ≡ false) → result ≡ any p rows.now }
{
    rows.iter()
        .take_while(|row| row.mark != 0)
        .any(|row| meets(*row))
}

// "twice the new volume being at least the cancelled volume", in 64 bits, where no volume makes the product wrap.
fn half_or_more(volume: u32, cancelled: u32) -> bool
    ensures { result ≡ leb cancelled (2 * volume) }
{
    u64::from(cancelled) <= 2 * u64::from(volume)
}

// Few rows are cancelled: of the others nothing more is tested.
fn reenters(clock: u32, o: Order, r: Row) -> bool
    ensures { result ≡ reenters clock o r }
{
    if r.mark != CANCELLED_MARK {
        return false;
    }
    let minute = in_minute(clock, r.cancel_time);
    let half = half_or_more(o.volume, r.volume);
    minute
        & (r.security == o.security)
        & (r.board == o.board)
        & (r.side == o.side)
        & (r.price == o.price)
        & half
}

pub fn covered_by_p(session: u32, o: Order) -> bool
    ensures { result ≡ covered_by_p session o }
{
    let value = value_of(o);
    (o.order_type == LIMIT) & (o.channel == ONLINE) & (session == OPENED) & (300_000_000 <= value)
}

pub fn rule_p(m: MarketView, d: Desk, o: Order) -> bool
    requires { marked_first d.rows ≡ true }
    ensures { result ≡ rule_p (record { market = m; desk = d }) o }
{
    if !covered_by_p(m.session, o) {
        return false;
    }
    any_marked(&d.rows, |r| reenters(m.clock, o, r))
}
