// The kinds of events by the number that their first byte has, each with its length.
ghost use Rattle.std.specs.Prelude.{◌≡◌};
ghost use Rattle.definitions.specs.Events.{length_of};
ghost use Rattle.events.specs.Kinds.{Numbers, kind_number};

use definitions::Refusal;

#[derive(Clone, Copy)]
pub enum Kind {
    Clock,
    Session,
    Setup,
    Prices,
    Order,
    Cancel,
    Match,
    Rest,
    Figures,
}

impl TryFrom<u8> for Kind {
    type Error = Refusal;

    ghost try_from_gives = { Numbers };

    fn try_from(number: u8) -> Result<Self, Refusal> {
        match number {
            1 => Ok(Kind::Clock),
            2 => Ok(Kind::Session),
            3 => Ok(Kind::Setup),
            4 => Ok(Kind::Prices),
            5 => Ok(Kind::Order),
            6 => Ok(Kind::Cancel),
            7 => Ok(Kind::Match),
            8 => Ok(Kind::Rest),
            9 => Ok(Kind::Figures),
            _ => Err(Refusal::Kind),
        }
    }
}

impl Kind {
    // The table's column "length".
    #[tactic(auto, unfolding(definitions::specs::Events::length_of))]
    pub fn length(self) -> usize
        ensures { result ≡ length_of (kind_number self) }
    {
        match self {
            Kind::Clock => 5,
            Kind::Session => 2,
            Kind::Setup => 14,
            Kind::Prices => 20,
            Kind::Order => 21,
            Kind::Cancel => 7,
            Kind::Match => 11,
            Kind::Rest => 11,
            Kind::Figures => 15,
        }
    }
}
