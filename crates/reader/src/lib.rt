// Paper 01, "The day program": it "walks the lent bytes with one event reader". The work is in `found_at`, over a plain slice, and the functions over
// the struct that holds a reference are thin.
#![tactic(auto)]

ghost use Rattle.std.specs.Prelude.{◌≡◌};
ghost use Rattle.std.specs.Iterator.{YieldsFirstRef, item_count};
ghost use Rattle.reader.specs.Places.{found_at, events_from};

use events::length_of;

// An iterator over the events from `at` on, each as its bytes.
#[derive(Clone, Copy)]
pub struct EventReader<'a> {
    pub bytes: &'a [u8],
    pub at: usize,
}

impl<'a> Iterator for EventReader<'a> {
    type Item = &'a [u8];

    ghost next_gives = { YieldsFirstRef (λ r. events_from r.bytes.now r.at) };

    ghost remaining = { item_count (λ r. events_from r.bytes.now r.at) };

    fn next(&mut self) -> Option<&'a [u8]> {
        let end = next(*self)?;
        let event = &self.bytes[self.at..end];
        *self = moved(*self, end);
        Some(event)
    }
}

// Where the event at a position ends, if one stands there. "`refused 2` or `refused 3` ends the listing": what is no whole event takes all that is left.
pub fn found_at(bytes: &[u8], at: usize) -> Option<usize>
    ensures { result ≡ found_at bytes.now at }
{
    if bytes.len() <= at {
        return None;
    }
    let left = bytes.len() - at;
    let length = length_of(bytes[at]);
    let whole = if length == 0 { left } else { length };
    if left < whole {
        return Some(at + left);
    }
    Some(at + whole)
}

pub fn reader_at<'a>(bytes: &'a [u8], at: usize) -> EventReader<'a>
    ensures { (result.bytes ≡ bytes.entry) × (result.at ≡ at) }
{
    EventReader { bytes, at }
}

// Where the event that the reader stands at ends.
pub fn next<'a>(r: EventReader<'a>) -> Option<usize>
    ensures { result ≡ found_at r.entry.bytes.now r.entry.at }
{
    found_at(r.bytes, r.at)
}

// The reader at another position of the same bytes.
pub fn moved<'a>(r: EventReader<'a>, at: usize) -> EventReader<'a>
    ensures { (result.bytes ≡ r.entry.bytes) × (result.at ≡ at) }
{
    EventReader { bytes: r.bytes, at }
}

// For a caller that holds the bytes and a position.
pub fn next_event(bytes: &[u8], from: usize) -> Option<usize>
    ensures { result ≡ found_at bytes.now from }
{
    next(reader_at(bytes, from))
}
