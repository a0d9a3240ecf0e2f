// Paper 01, "Prices and the ladder": which prices are legal, and at which position each stands.
#![tactic(auto)]

ghost use Rattle.std.specs.Prelude.{◌≡◌, ◌≤◌};
ghost use Rattle.ladder.specs.Bands.{first_price, last_price};
ghost use Rattle.ladder.specs.Ladder.{StepRule, band_of_price, legal, legal_down, legal_up, lower_number, nearest_to, on_step, position_number, position_of, price_at, upper_number};

mod legal_prices;

use legal_prices::LEGAL_PRICES;

// A row of the paper's table: the first price and the step in satang, and the position of the first price.
#[derive(Clone, Copy)]
pub struct Band {
    pub from: u32,
    pub step: u32,
    pub first: u32,
}

// Paper 02, 2: "the nearest position at or below, the nearest at or above, and whether the price is legal", three fields for the request's three.
#[derive(Clone, Copy)]
pub struct NearestPositions {
    pub lower: u32,
    pub upper: u32,
    pub legal: bool,
}

// The prices at two positions.
#[derive(Clone, Copy)]
pub struct PricePair {
    pub low: u32,
    pub high: u32,
}

#[derive(Clone, Copy)]
pub struct Ladder {}

impl Ladder {
    pub const FIRST_PRICE: u32 = 1;

    pub const LAST_PRICE: u32 = 10_000_000;

    pub const POSITIONS: u32 = 51_100;

    pub fn legal(price: u32) -> bool
        ensures { result ≡ legal price }
    {
        if price < Ladder::FIRST_PRICE {
            return false;
        }
        if Ladder::LAST_PRICE < price {
            return false;
        }
        on_step(price)
    }

    pub fn position(price: u32) -> Option<u32>
        ensures { result ≡ position_of price }
    {
        if !Ladder::legal(price) {
            return None;
        }
        let band = band_of(price);
        Some(band.first + (price - band.from) / band.step)
    }

    // 0, which is no position, for a price off the ladder.
    pub fn position_number(p: Option<u32>) -> u32
        ensures { result ≡ position_number p }
    {
        p.unwrap_or(0)
    }

    // "for others, none". Between two steps the position follows by the price's own band, as on a step: the table of prices is not searched.
    pub fn nearest(price: u32) -> Option<NearestPositions>
        ensures { result ≡ nearest_to price }
    {
        if price < Ladder::FIRST_PRICE {
            return None;
        }
        if Ladder::LAST_PRICE < price {
            return None;
        }
        let band = band_of(price);
        let above = price - band.from;
        let lower = band.first + above / band.step;
        if above % band.step == 0 {
            return Some(NearestPositions {
                lower,
                upper: lower,
                legal: true,
            });
        }
        Some(NearestPositions {
            lower,
            upper: lower + 1,
            legal: false,
        })
    }

    // 0, which is no position, for none.
    pub fn lower_number(n: Option<NearestPositions>) -> u32
        ensures { result ≡ lower_number n }
    {
        n.map_or(0, |positions| positions.lower)
    }

    pub fn upper_number(n: Option<NearestPositions>) -> u32
        ensures { result ≡ upper_number n }
    {
        n.map_or(0, |positions| positions.upper)
    }

    // 0, the absent price, for a number that is no position.
    pub fn price(position: u32) -> u32
        ensures { result ≡ price_at position }
    {
        Ladder::prices(position, position).low
    }

    // Paper 02, 3: "down to a legal price".
    pub fn legal_down(price: u32) -> u32
        requires { price ≤ last_price }
        ensures { result ≡ legal_down price }
    {
        Ladder::price(Ladder::lower_number(Ladder::nearest(price)))
    }

    // "up to one"
    pub fn legal_up(price: u32) -> u32
        requires { (first_price ≤ price) × (price ≤ last_price) }
        ensures { result ≡ legal_up price }
    {
        Ladder::price(Ladder::upper_number(Ladder::nearest(price)))
    }

    // The one function that reads the table, for both prices at once: a call builds the whole array on its stack (docs/DECISIONS.md).
    pub fn prices(low: u32, high: u32) -> PricePair
        ensures { (result.low ≡ price_at low) × (result.high ≡ price_at high) }
    {
        if (1300 < low) & (1300 < high) {
            return PricePair {
                low: stepped(low),
                high: stepped(high),
            };
        }
        let table = LEGAL_PRICES;
        PricePair {
            low: tabled(&table, low),
            high: tabled(&table, high),
        }
    }
}

fn tabled(table: &[u16; 1300], position: u32) -> u32
    requires { StepRule table.now }
    ensures { result ≡ price_at position }
{
    if position < 1 {
        return 0;
    }
    if 1300 < position {
        return stepped(position);
    }
    u32::from(table[(position - 1) as usize])
}

// "Above 400.00 positions follow by the step; the last is 51,100."
fn stepped(position: u32) -> u32
    requires { 1300 ≤ position }
    ensures { result ≡ price_at position }
{
    if Ladder::POSITIONS < position {
        return 0;
    }
    40_000 + 200 * (position - 1300)
}

// Each step is a literal, since a remainder by a number that is known only at run time costs a division.
fn on_step(price: u32) -> bool
    ensures { result ≡ on_step (band_of_price price) price }
{
    // The bands above 100.00 baht and those below are asked apart, so that no price passes seven tests.
    if 10_000 <= price {
        if 40_000 <= price {
            return (price - 40_000) % 200 == 0;
        }
        if 20_000 <= price {
            return (price - 20_000) % 100 == 0;
        }
        return (price - 10_000) % 50 == 0;
    }
    if 2_500 <= price {
        return (price - 2_500) % 25 == 0;
    }
    if 1_000 <= price {
        return (price - 1_000) % 10 == 0;
    }
    if 500 <= price {
        return (price - 500) % 5 == 0;
    }
    if 200 <= price {
        return (price - 200) % 2 == 0;
    }
    true
}

fn band_of(price: u32) -> Band
    ensures { result ≡ band_of_price price }
{
    if price < 200 {
        return Band {
            from: 1,
            step: 1,
            first: 1,
        };
    }
    if price < 500 {
        return Band {
            from: 200,
            step: 2,
            first: 200,
        };
    }
    if price < 1_000 {
        return Band {
            from: 500,
            step: 5,
            first: 350,
        };
    }
    if price < 2_500 {
        return Band {
            from: 1_000,
            step: 10,
            first: 450,
        };
    }
    if price < 10_000 {
        return Band {
            from: 2_500,
            step: 25,
            first: 600,
        };
    }
    if price < 20_000 {
        return Band {
            from: 10_000,
            step: 50,
            first: 900,
        };
    }
    if price < 40_000 {
        return Band {
            from: 20_000,
            step: 100,
            first: 1100,
        };
    }
    Band {
        from: 40_000,
        step: 200,
        first: 1300,
    }
}
