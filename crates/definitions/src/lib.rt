// The records, events and answers of papers 01 and 02, as the code has them. What they mean stands in specs/.
#![tactic(auto)]

ghost use Rattle.std.specs.Prelude.{◌≡◌};
ghost use Rattle.definitions.specs.Answers.{refusal_number};

pub mod codes;

use codes::DESK_ROWS;

// Paper 01, "The lent state": the header.
#[derive(Clone, Copy)]
pub struct Header {
    pub customers: u32,
    pub securities: u32,
    pub clock: u32,
    pub session: u32,
}

// What is set for a day: lot and flags, as kind 3's codes, and the prices from before it.
#[derive(Clone, Copy)]
pub struct Terms {
    pub lot: u32,
    pub free: u32,
    pub first_day: u32,
}

#[derive(Clone, Copy)]
pub struct PriorPrices {
    pub close: u32,
    pub ipo: u32,
}

// The four prices of a security on one board; 0 is absent.
#[derive(Clone, Copy)]
pub struct Prices {
    pub projected: u32,
    pub last_sale: u32,
    pub bid: u32,
    pub offer: u32,
}

// Paper 02, 3: what a dividend and a right to new shares take from the prior close; all zero without figures.
#[derive(Clone, Copy, PartialEq, Eq, Default)]
pub struct Figures {
    pub dividend: u32,
    pub subscription: u32,
    pub old_shares: u32,
    pub new_shares: u32,
}

#[derive(Clone, Copy)]
pub struct Security {
    pub terms: Terms,
    pub prior: PriorPrices,
    pub main: Prices,
    pub foreign: Prices,
    pub figures: Figures,
}

// Paper 02, 3: the base of the day's range, "kept as two whole numbers".
#[derive(Clone, Copy)]
pub struct Base {
    pub numerator: u64,
    pub denominator: u64,
}

#[derive(Clone, Copy)]
pub struct Range {
    pub floor: u32,
    pub ceiling: u32,
}

// `order_type` is the paper's type of an order: `type` is a keyword.
#[derive(Clone, Copy, Default)]
pub struct Row {
    pub mark: u32,
    pub number: u32,
    pub security: u32,
    pub board: u32,
    pub side: u32,
    pub order_type: u32,
    pub price: u32,
    pub volume: u32,
    pub cancel_time: u32,
}

#[derive(Clone, Copy)]
pub struct Desk {
    pub accepted: u32,
    pub warned: u32,
    pub rejected: u32,
    pub rows: [Row; DESK_ROWS],
}

// What a rule may see of the market: with one desk it is all that decides about an order (specs/Rules.antt).
#[derive(Clone, Copy)]
pub struct MarketView {
    pub session: u32,
    pub clock: u32,
    pub security: Security,
}

// Paper 01, "Events": a struct for each kind of more than one field. A customer's event stands beside the number of its customer, so that what decides
// about an order is not given that number.
#[derive(Clone, Copy)]
pub struct Setup {
    pub security: u32,
    pub terms: Terms,
    pub prior: PriorPrices,
}

#[derive(Clone, Copy)]
pub struct BoardPrices {
    pub security: u32,
    pub board: u32,
    pub prices: Prices,
}

#[derive(Clone, Copy)]
pub struct Order {
    pub number: u32,
    pub security: u32,
    pub board: u32,
    pub side: u32,
    pub order_type: u32,
    pub channel: u32,
    pub price: u32,
    pub volume: u32,
}

#[derive(Clone, Copy)]
pub struct Cancel {
    pub number: u32,
}

#[derive(Clone, Copy)]
pub struct Match {
    pub number: u32,
    pub volume: u32,
}

// Paper 02, 1: the rest of an MP order, with the price at which it stays in the book as a limit.
#[derive(Clone, Copy)]
pub struct Rest {
    pub number: u32,
    pub price: u32,
}

// Paper 02, 3: new figures of a security.
#[derive(Clone, Copy)]
pub struct SecurityFigures {
    pub security: u32,
    pub figures: Figures,
}

#[derive(Clone, Copy)]
pub enum Event {
    Clock(u32),
    Session(u32),
    Setup(Setup),
    Prices(BoardPrices),
    Order(u32, Order),
    Cancel(u32, Cancel),
    Match(u32, Match),
    Rest(u32, Rest),
    Figures(SecurityFigures),
}

// Paper 01, "Verdicts": the letter of a reject is the rule that applies.
#[derive(Clone, Copy)]
pub enum Verdict {
    RejectS,
    RejectV,
    RejectC,
    RejectQ,
    RejectW,
    RejectP,
    Warn30,
    Warn10,
    Accept,
}

// What a verdict counts as: the counter that it adds 1 to.
#[derive(Clone, Copy, PartialEq, Eq)]
pub enum Counter {
    Accepted,
    Warned,
    Rejected,
}

// Paper 01, "Where an event is turned back": what is wrong, under the paper's numbers.
#[derive(Clone, Copy, Debug, PartialEq, Eq)]
pub enum Refusal {
    State = 1,
    Length,
    Kind,
    Name,
    Code,
    Price,
    Time,
    Record,
    NumberTaken,
    NoOpenRow,
    Volume,
    FullDesk,
    Figures,
}

impl Refusal {
    // The paper's number, for callers in other languages.
    pub fn number(self) -> u32
        ensures { result ≡ refusal_number self }
    {
        self as u32
    }
}

// By this a function takes a refusal and a plain number alike.
impl From<Refusal> for u32 {
    ghost from_gives = { λ r n. n ≡ refusal_number r };

    fn from(refusal: Refusal) -> u32 {
        refusal.number()
    }
}

// An order's answer has its verdict; that of another event, the paper's `ok`, has none.
pub type Answer = Result<Option<Verdict>, Refusal>;
