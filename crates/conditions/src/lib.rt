// Paper 01, "Where an event is turned back": the conditions 4 to 8, in the table's order, for every kind of event.
#![tactic(auto)]

ghost use Rattle.std.specs.Prelude.{true, cond, ◌≡◌};
ghost use Rattle.definitions.specs.State.{state_fits};
ghost use Rattle.definitions.specs.Answers.{refusal_number, refused_by};
ghost use Rattle.definitions.specs.Refusals.{bad_code};
ghost use Rattle.kind_contract.specs.First.{first_refusal};

use definitions::codes::{DMA, FOREIGN_BOARD, LAST_TIME, MP, PRE_CLOSE, SELL};
use definitions::{Event, Order, Refusal};
use ladder::Ladder;
use securities::{sound_prices, sound_prior, sound_terms};
use state_soundness::{all_sound, priced_as, sound_desk_at, sound_security_at};

// The first condition that is met refuses the event. No record is read before the event's own fields have passed. One match, and a return at
// each condition: the compiler then goes on from an event that has passed to the function of its kind without a second match.
pub fn first_refusal(words: &[u32], e: Event) -> Result<(), Refusal>
    requires { state_fits words.now ≡ true }
    ensures { refused_by result ≡ first_refusal words.now e }
{
    let h = state::header_of(words);
    match e {
        Event::Clock(t) => {
            if LAST_TIME < t {
                return Err(Refusal::Code);
            }
            refused_if(t < h.clock, Refusal::Time)
        }
        Event::Session(s) => {
            if PRE_CLOSE < s {
                return Err(Refusal::Code);
            }
            refused_if(!all_sound(words), Refusal::Record)
        }
        Event::Setup(x) => {
            if h.securities <= x.security {
                return Err(Refusal::Name);
            }
            if !sound_terms(x.terms) {
                return Err(Refusal::Code);
            }
            if !sound_prior(x.prior) {
                return Err(Refusal::Price);
            }
            refused_if(!sound_security_at(words, x.security), Refusal::Record)
        }
        Event::Prices(x) => {
            if h.securities <= x.security {
                return Err(Refusal::Name);
            }
            if FOREIGN_BOARD < x.board {
                return Err(Refusal::Code);
            }
            if !sound_prices(x.prices) {
                return Err(Refusal::Price);
            }
            refused_if(!sound_security_at(words, x.security), Refusal::Record)
        }
        Event::Order(k, x) => {
            if (h.customers <= k) | (h.securities <= x.security) {
                return Err(Refusal::Name);
            }
            if bad_code(x) {
                return Err(Refusal::Code);
            }
            if !priced_as(x.order_type, x.price) {
                return Err(Refusal::Price);
            }
            refused_if(
                !(sound_security_at(words, x.security) & sound_desk_at(words, k)),
                Refusal::Record,
            )
        }
        Event::Cancel(k, x) => {
            if h.customers <= k {
                return Err(Refusal::Name);
            }
            if x.number == 0 {
                return Err(Refusal::Code);
            }
            refused_if(!sound_desk_at(words, k), Refusal::Record)
        }
        Event::Match(k, m) => {
            if h.customers <= k {
                return Err(Refusal::Name);
            }
            if m.number == 0 {
                return Err(Refusal::Code);
            }
            refused_if(!sound_desk_at(words, k), Refusal::Record)
        }
        Event::Rest(k, r) => {
            if h.customers <= k {
                return Err(Refusal::Name);
            }
            if r.number == 0 {
                return Err(Refusal::Code);
            }
            if !Ladder::legal(r.price) {
                return Err(Refusal::Price);
            }
            refused_if(!sound_desk_at(words, k), Refusal::Record)
        }
        Event::Figures(f) => {
            if h.securities <= f.security {
                return Err(Refusal::Name);
            }
            refused_if(!sound_security_at(words, f.security), Refusal::Record)
        }
    }
}

fn refused_if(met: bool, refusal: Refusal) -> Result<(), Refusal>
    ensures { refused_by result ≡ cond met (refusal_number refusal) 0 }
{
    if met { Err(refusal) } else { Ok(()) }
}

// 5, of an order: "a code outside its list, .. order number 0"
fn bad_code(o: Order) -> bool
    ensures { result ≡ bad_code o }
{
    (FOREIGN_BOARD < o.board)
        | (SELL < o.side)
        | (MP < o.order_type)
        | (DMA < o.channel)
        | (o.number == 0)
}
