// A security taken out of the words: the prices of one of its boards, what becomes of it, and when it is sound.
#![tactic(auto)]

ghost use Rattle.std.specs.Prelude.{◌≡◌};
ghost use Rattle.definitions.specs.Securities.{after_figures, after_prices, after_setup, no_projected, without_projected};
ghost use Rattle.definitions.specs.Rules.{prices_on};
ghost use Rattle.definitions.specs.Sound.{price_or_absent, settable, sound_figures, sound_prices, sound_prior, sound_security, sound_terms};

use definitions::codes::{FOREIGN_BOARD, MAX_SHARES};
use definitions::{
    BoardPrices, Figures, Prices, PriorPrices, Security, SecurityFigures, Setup, Terms,
};
use ladder::Ladder;

pub fn prices_on(s: Security, board: u32) -> Prices
    ensures { result ≡ prices_on s board }
{
    if board == FOREIGN_BOARD {
        s.foreign
    } else {
        s.main
    }
}

// "Kinds 3 and 4 replace the fields they name."; of kind 9's figures: "kind 3 clears it"
#[tactic(auto, unfolding(definitions::specs::Securities::after_setup))]
pub fn after_setup(x: Setup, s: Security) -> Security
    ensures { result ≡ after_setup x s }
{
    Security {
        terms: x.terms,
        prior: x.prior,
        figures: Figures::default(),
        ..s
    }
}

#[tactic(auto, unfolding(definitions::specs::Securities::after_figures))]
pub fn after_figures(x: SecurityFigures, s: Security) -> Security
    ensures { result ≡ after_figures x s }
{
    Security {
        figures: x.figures,
        ..s
    }
}

#[tactic(auto, unfolding(definitions::specs::Securities::after_prices))]
pub fn after_prices(x: BoardPrices, s: Security) -> Security
    ensures { result ≡ after_prices x s }
{
    if x.board == FOREIGN_BOARD {
        Security {
            foreign: x.prices,
            ..s
        }
    } else {
        Security {
            main: x.prices,
            ..s
        }
    }
}

fn no_projected(p: Prices) -> Prices
    ensures { result ≡ no_projected p }
{
    Prices { projected: 0, ..p }
}

// "makes every projected price absent"
#[tactic(auto, unfolding(definitions::specs::Securities::without_projected))]
pub fn without_projected(s: Security) -> Security
    ensures { result ≡ without_projected s }
{
    Security {
        main: no_projected(s.main),
        foreign: no_projected(s.foreign),
        ..s
    }
}

// "lot and flags have listed values"
pub fn sound_terms(t: Terms) -> bool
    ensures { result ≡ sound_terms t }
{
    ((t.lot == 1) | (t.lot == 50) | (t.lot == 100)) & (t.free <= 1) & (t.first_day <= 1)
}

fn price_or_absent(p: u32) -> bool
    ensures { result ≡ price_or_absent p }
{
    (p == 0) | Ladder::legal(p)
}

// An adjusted prior close may stand between two steps.
pub fn sound_prior(p: PriorPrices) -> bool
    ensures { result ≡ sound_prior p }
{
    (p.close <= Ladder::LAST_PRICE) & (p.ipo <= Ladder::LAST_PRICE)
}

pub fn sound_prices(p: Prices) -> bool
    ensures { result ≡ sound_prices p }
{
    price_or_absent(p.projected)
        & price_or_absent(p.last_sale)
        & price_or_absent(p.bid)
        & price_or_absent(p.offer)
}

// What kind 9 may set: 13 is for what this lets not pass. The shares of an event have two bytes, those of damaged words may have more.
pub fn settable(close: u32, f: Figures) -> bool
    ensures { result ≡ settable close f }
{
    (1 <= f.old_shares)
        & (f.old_shares <= MAX_SHARES)
        & (f.new_shares <= MAX_SHARES)
        & (f.dividend < close)
}

// "sound if all zero or as kind 9 could have set them"
fn sound_figures(close: u32, f: Figures) -> bool
    ensures { result ≡ sound_figures close f }
{
    (f == Figures::default()) | settable(close, f)
}

#[tactic(auto, unfolding(definitions::specs::Sound::sound_security))]
pub fn sound_security(s: Security) -> bool
    ensures { result ≡ sound_security s }
{
    sound_terms(s.terms)
        & sound_prior(s.prior)
        & sound_prices(s.main)
        & sound_prices(s.foreign)
        & sound_figures(s.prior.close, s.figures)
}
