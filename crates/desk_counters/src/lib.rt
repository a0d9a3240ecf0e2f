// What a verdict counts as, and whether its order takes a row.
#![tactic(auto)]

ghost use Rattle.std.specs.Prelude.{◌≡◌};
ghost use Rattle.definitions.specs.Desks.{counted, counted_up, counter_of, takes_row};

use definitions::{Counter, Desk, Verdict};

fn counter_of(v: Verdict) -> Counter
    ensures { result ≡ counter_of v }
{
    match v {
        Verdict::RejectS
        | Verdict::RejectV
        | Verdict::RejectC
        | Verdict::RejectQ
        | Verdict::RejectW
        | Verdict::RejectP => Counter::Rejected,
        Verdict::Warn30 | Verdict::Warn10 => Counter::Warned,
        Verdict::Accept => Counter::Accepted,
    }
}

// "Accepted or warned"
pub fn takes_row(v: Verdict) -> bool
    ensures { result ≡ takes_row v }
{
    counter_of(v) != Counter::Rejected
}

// "Each verdict adds 1 to its counter"
#[tactic(auto, unfolding(definitions::specs::Desks::counted))]
pub fn counted(v: Verdict, mut d: Desk) -> Desk
    ensures { result ≡ counted v d }
{
    match counter_of(v) {
        Counter::Accepted => d.accepted = counted_up(d.accepted),
        Counter::Warned => d.warned = counted_up(d.warned),
        Counter::Rejected => d.rejected = counted_up(d.rejected),
    }
    d
}

// "each stays at 4,294,967,295 once there"
fn counted_up(n: u32) -> u32
    ensures { result ≡ counted_up n }
{
    n.saturating_add(1)
}
