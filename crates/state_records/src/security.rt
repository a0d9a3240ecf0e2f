// Paper 01, "The lent state": a security's words, taken out and put back as one record.
ghost use Rattle.std.specs.Prelude.{◌≡◌, ◌+◌, ◌≤◌, length};
ghost use Rattle.definitions.specs.Gate.{change_security};
ghost use Rattle.definitions.specs.State.{security_size, security_place, security_of, security_words, security_at, put_security};

use definitions::codes::SECURITY_SIZE;
use definitions::{Figures, Prices, PriorPrices, Security, Terms};
use state::{copy_in, security_place};

#[tactic(auto, unfolding(definitions::specs::State::security_of))]
fn security_of(words: &[u32]) -> Security
    requires { length words.now ≡ security_size }
    ensures { result ≡ security_of words.now }
{
    let terms = Terms {
        lot: words[0],
        free: words[1],
        first_day: words[2],
    };
    let prior = PriorPrices {
        close: words[3],
        ipo: words[4],
    };
    let main = Prices {
        projected: words[5],
        last_sale: words[6],
        bid: words[7],
        offer: words[8],
    };
    let foreign = Prices {
        projected: words[9],
        last_sale: words[10],
        bid: words[11],
        offer: words[12],
    };
    let figures = Figures {
        dividend: words[13],
        subscription: words[14],
        old_shares: words[15],
        new_shares: words[16],
    };
    Security {
        terms,
        prior,
        main,
        foreign,
        figures,
    }
}

#[tactic(auto, unfolding(definitions::specs::State::security_at, definitions::specs::Lists::part))]
pub fn security_at(words: &[u32], s: u32) -> Security
    requires { security_place s + security_size ≤ length words.now }
    ensures { result ≡ security_at words.now s }
{
    let at = security_place(s);
    security_of(&words[at..at + SECURITY_SIZE])
}

#[tactic(auto, unfolding(definitions::specs::State::security_words))]
fn security_words(x: Security) -> [u32; SECURITY_SIZE]
    ensures { result ≡ security_words x }
{
    [
        x.terms.lot,
        x.terms.free,
        x.terms.first_day,
        x.prior.close,
        x.prior.ipo,
        x.main.projected,
        x.main.last_sale,
        x.main.bid,
        x.main.offer,
        x.foreign.projected,
        x.foreign.last_sale,
        x.foreign.bid,
        x.foreign.offer,
        x.figures.dividend,
        x.figures.subscription,
        x.figures.old_shares,
        x.figures.new_shares,
    ]
}

#[tactic(auto, unfolding(definitions::specs::State::put_security))]
pub fn put_security(words: &mut [u32], s: u32, x: Security)
    requires { security_place s + security_size ≤ length words.old }
    ensures { words.new ≡ put_security words.old s x }
{
    let at = security_place(s);
    copy_in(words, at, &security_words(x));
}

// A security as an event leaves it, put back where it was taken out.
pub fn change_security<F: FnOnce(Security) -> Security>(words: &mut [u32], s: u32, becomes: F)
    requires stands { security_place s + security_size ≤ length words.old }
    requires callable { F.pre becomes (security_at words.old s) }
    ensures { (f : _) → ((x : _) (left : _) → F.post becomes x left → left ≡ f x) → words.new ≡ change_security f s words.old }
{
    let security = security_at(words, s);
    put_security(words, s, becomes(security));
}
