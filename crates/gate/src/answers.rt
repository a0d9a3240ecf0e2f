// The number of an answer, as it is handed to C and written to the places for answers.
ghost use Rattle.std.specs.Prelude.{◌≡◌};
ghost use Rattle.definitions.specs.Answers.{answer_number, answered_by, verdict_number};

use definitions::Verdict;

// Whatever has a number may refuse: a refusal of the gate, or any u32 that a caller has in its place.
pub fn answer_number<R: Into<u32>>(a: Result<Option<Verdict>, R>) -> u32
    ensures { (number : _) → ((r : _) (n : _) → R.converts r n → n ≡ number r) → result ≡ answer_number (answered_by number a) }
{
    match a {
        Ok(None) => 0,
        Ok(Some(v)) => verdict_number(v),
        Err(refusal) => refusal.into(),
    }
}

fn verdict_number(v: Verdict) -> u32
    ensures { result ≡ verdict_number v }
{
    match v {
        Verdict::RejectS => 219,
        Verdict::RejectV => 222,
        Verdict::RejectC => 203,
        Verdict::RejectQ => 217,
        Verdict::RejectW => 223,
        Verdict::RejectP => 216,
        Verdict::Warn30 => 130,
        Verdict::Warn10 => 110,
        Verdict::Accept => 100,
    }
}
