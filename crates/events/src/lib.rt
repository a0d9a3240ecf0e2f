// Paper 01, "Events", and paper 02's kinds: the bytes of one event, read whole or refused before any rule looks at them.
#![tactic(auto)]

ghost use Rattle.std.specs.Prelude.{◌≡◌, ◌+◌, ◌*◌, ◌≤◌, ◌<◌, length, get_or};
ghost use Rattle.definitions.specs.Events.{two, four, length_of, clock_of, session_of, setup_of, prices_of, order_of, cancel_of, match_of, rest_of, figures_of, event_of};
ghost use Rattle.definitions.specs.Answers.{by_number};
ghost use Rattle.events.specs.Kinds.{kind_number};
ghost use Rattle.events.specs.Readings.{read_event};

use definitions::{
    BoardPrices, Cancel, Event, Figures, Match, Order, Prices, PriorPrices, Refusal, Rest,
    SecurityFigures, Setup, Terms,
};
use kind::Kind;

mod kind;

// "an unknown kind is found before a wrong length"
pub fn read_event(bytes: &[u8]) -> Result<Event, Refusal>
    ensures { by_number result ≡ read_event bytes.now }
{
    if bytes.is_empty() {
        return Err(Refusal::Length);
    }
    let kind = Kind::try_from(bytes[0])?;
    if bytes.len() != kind.length() {
        return Err(Refusal::Length);
    }
    Ok(event_of(kind, bytes))
}

// The table's column "length"; 0 for an unknown kind, as the definition has it for every number.
pub fn length_of(kind: u8) -> usize
    ensures { result ≡ length_of kind }
{
    Kind::try_from(kind).map_or(0, |known| known.length())
}

#[tactic(auto, unfolding(definitions::specs::Events::length_of, definitions::specs::Events::event_of))]
fn event_of(kind: Kind, bytes: &[u8]) -> Event
    requires { length bytes.now ≡ length_of (kind_number kind) }
    ensures { result ≡ event_of (kind_number kind) bytes.now }
{
    match kind {
        Kind::Clock => clock_of(bytes),
        Kind::Session => session_of(bytes),
        Kind::Setup => setup_of(bytes),
        Kind::Prices => prices_of(bytes),
        Kind::Order => order_of(bytes),
        Kind::Cancel => cancel_of(bytes),
        Kind::Match => match_of(bytes),
        Kind::Rest => rest_of(bytes),
        Kind::Figures => figures_of(bytes),
    }
}

fn clock_of(bytes: &[u8]) -> Event
    requires { length bytes.now ≡ 5 }
    ensures { result ≡ clock_of bytes.now }
{
    Event::Clock(four_at(bytes, 1))
}

fn session_of(bytes: &[u8]) -> Event
    requires { length bytes.now ≡ 2 }
    ensures { result ≡ session_of bytes.now }
{
    Event::Session(byte_at(bytes, 1))
}

fn setup_of(bytes: &[u8]) -> Event
    requires { length bytes.now ≡ 14 }
    ensures { result ≡ setup_of bytes.now }
{
    Event::Setup(Setup {
        security: two_at(bytes, 1),
        terms: Terms {
            lot: byte_at(bytes, 3),
            free: byte_at(bytes, 4),
            first_day: byte_at(bytes, 5),
        },
        prior: PriorPrices {
            close: four_at(bytes, 6),
            ipo: four_at(bytes, 10),
        },
    })
}

fn prices_of(bytes: &[u8]) -> Event
    requires { length bytes.now ≡ 20 }
    ensures { result ≡ prices_of bytes.now }
{
    Event::Prices(BoardPrices {
        security: two_at(bytes, 1),
        board: byte_at(bytes, 3),
        prices: Prices {
            projected: four_at(bytes, 4),
            last_sale: four_at(bytes, 8),
            bid: four_at(bytes, 12),
            offer: four_at(bytes, 16),
        },
    })
}

fn order_of(bytes: &[u8]) -> Event
    requires { length bytes.now ≡ 21 }
    ensures { result ≡ order_of bytes.now }
{
    Event::Order(
        two_at(bytes, 1),
        Order {
            number: four_at(bytes, 3),
            security: two_at(bytes, 7),
            board: byte_at(bytes, 9),
            side: byte_at(bytes, 10),
            order_type: byte_at(bytes, 11),
            channel: byte_at(bytes, 12),
            price: four_at(bytes, 13),
            volume: four_at(bytes, 17),
        },
    )
}

fn cancel_of(bytes: &[u8]) -> Event
    requires { length bytes.now ≡ 7 }
    ensures { result ≡ cancel_of bytes.now }
{
    Event::Cancel(
        two_at(bytes, 1),
        Cancel {
            number: four_at(bytes, 3),
        },
    )
}

fn match_of(bytes: &[u8]) -> Event
    requires { length bytes.now ≡ 11 }
    ensures { result ≡ match_of bytes.now }
{
    Event::Match(
        two_at(bytes, 1),
        Match {
            number: four_at(bytes, 3),
            volume: four_at(bytes, 7),
        },
    )
}

fn rest_of(bytes: &[u8]) -> Event
    requires { length bytes.now ≡ 11 }
    ensures { result ≡ rest_of bytes.now }
{
    Event::Rest(
        two_at(bytes, 1),
        Rest {
            number: four_at(bytes, 3),
            price: four_at(bytes, 7),
        },
    )
}

fn figures_of(bytes: &[u8]) -> Event
    requires { length bytes.now ≡ 15 }
    ensures { result ≡ figures_of bytes.now }
{
    Event::Figures(SecurityFigures {
        security: two_at(bytes, 1),
        figures: Figures {
            dividend: four_at(bytes, 3),
            subscription: four_at(bytes, 7),
            old_shares: two_at(bytes, 11),
            new_shares: two_at(bytes, 13),
        },
    })
}

fn byte_at(bytes: &[u8], at: usize) -> u32
    requires { at < length bytes.now }
    ensures { result ≡ get_or bytes.now at 0 }
{
    u32::from(bytes[at])
}

// "little-endian"
fn two_at(bytes: &[u8], at: usize) -> u32
    requires { at + 2 ≤ length bytes.now }
    ensures { result ≡ two bytes.now at }
{
    u32::from(u16::from_le_bytes([bytes[at], bytes[at + 1]]))
}

fn four_at(bytes: &[u8], at: usize) -> u32
    requires { at + 4 ≤ length bytes.now }
    ensures { result ≡ four bytes.now at }
{
    u32::from_le_bytes([bytes[at], bytes[at + 1], bytes[at + 2], bytes[at + 3]])
}
