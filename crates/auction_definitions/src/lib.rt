// Paper 02, 5: the structs, limits and answers that the auction's code shares with its definitions.
#![tactic(auto)]

ghost use Rattle.std.specs.Prelude.{◌≡◌};
ghost use Rattle.auction_definitions.specs.Answers.{refusal_number};

pub const MAX_ORDERS: usize = 1_024;

// "a lent list of orders, each with its side, price and volume, price 0 for ATO or ATC"
#[repr(C)]
#[derive(Clone, Copy, Debug, Default, PartialEq, Eq)]
pub struct AuctionOrder {
    pub side: u32,
    pub price: u32,
    pub volume: u32,
}

// A line of the table that source documents 002 and 003 print: a price with the buyers' and the sellers' sums.
#[derive(Clone, Copy, Debug, Default, PartialEq, Eq)]
pub struct Line {
    pub price: u32,
    pub buyers: u64,
    pub sellers: u64,
}

// The price that is given, with its volume.
#[derive(Clone, Copy, Debug, PartialEq, Eq)]
pub struct AuctionPrice {
    pub price: u32,
    pub volume: u64,
}

// "Turned away": what is wrong, under the paper's numbers, in the order in which it is asked.
#[derive(Clone, Copy, Debug, PartialEq, Eq)]
pub enum AuctionRefusal {
    Lists = 14,
    BadOrder = 15,
    Place = 16,
}

impl AuctionRefusal {
    // The paper's number, for callers in other languages.
    pub fn number(self) -> u32
        ensures { result ≡ refusal_number self }
    {
        self as u32
    }
}

// By this a function takes a refusal and a plain number alike.
impl From<AuctionRefusal> for u32 {
    ghost from_gives = { λ r n. n ≡ refusal_number r };

    fn from(refusal: AuctionRefusal) -> u32 {
        refusal.number()
    }
}

// The paper's "none" is `Ok(None)`.
pub type AuctionAnswer = Result<Option<AuctionPrice>, AuctionRefusal>;

// The answer as numbers, for callers in other languages.
#[repr(C)]
#[derive(Clone, Copy, Debug, Default, PartialEq, Eq)]
pub struct AuctionNumbers {
    pub volume: u64,
    pub price: u32,
    pub refusal: u32,
}
