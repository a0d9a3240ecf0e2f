// Paper 01, "The day program": events on standard input, a listing on standard output, over 8 customers and 16 securities.
#![tactic(auto)]

ghost use Rattle.std.specs.Prelude.{◌≡◌, length, OnOk};
ghost use Rattle.definitions.specs.Gate.{words_after};
ghost use Rattle.definitions.specs.Walk.{split};
ghost use Rattle.definitions.specs.Answers.{answered, refusal_number, verdict_text, refused_text, answer_text};
ghost use Rattle.day.specs.Text.{line_text};
ghost use Rattle.std.specs.Io.KnownBytes.{Appends};

use definitions::codes::{DESK_SIZE, HEADER_SIZE, SECURITY_SIZE};
use definitions::{Answer, Refusal, Verdict};
use input::read_full;
use std::io;
use std::io::Write;

mod input;

const CUSTOMERS: u32 = 8;

const SECURITIES: u32 = 16;

const WORDS: usize = HEADER_SIZE
    + SECURITY_SIZE * (SECURITIES as usize)
    + DESK_SIZE * (CUSTOMERS as usize);

// What is read of the input, in bytes.
const INPUT: usize = 65536;

fn main(rt: HostRuntime) -> io::Result<()> {
    let mut words = [0u32; WORDS];
    let made = gate::make(&mut words, CUSTOMERS, SECURITIES);
    prove!(made.is_ok());
    let mut input = [0u8; INPUT];
    let length = read_full(&mut rt.stdin(), &mut input)?;
    let mut out = io::writer(&rt);
    out.write_all(b"screen 8 16\n")?;
    list(&mut words, &input[..length], &mut out)
}

// "walks the lent bytes with one event reader". The words are those that the events leave, one after another. As many events as there are bytes are all
// of them (`split-all`), and none follows one that is refused with 2 or 3 (`whole_before`).
// A line that cannot be written stops no event: the first failure is returned at the end.
fn list<W: Write>(words: &mut [u32], bytes: &[u8], out: &mut W) -> io::Result<()>
    ensures { words.new ≡ words_after words.old (split (length bytes.now) bytes.now) }
{
    let mut written: io::Result<()> = Ok(());
    for (index, event) in reader::reader_at(bytes, 0).enumerate() {
        let answer = gate::handle(words, event);
        written = written.and(line(index, event[0], answer, out));
    }
    written
}

// An event's index from 0, its kind byte and its answer.
fn line<W: Write>(index: usize, kind: u8, answer: Answer, out: &mut W) -> io::Result<()>
    ensures { OnOk result (Appends (W.contents out.old) (W.contents out.new) (line_text index kind (answered answer))) }
{
    write!(out, "{index} {kind} ")?;
    out.write_all(answer_text(answer))?;
    out.write_all(b"\n")
}

// The words are proved whatever becomes of them: what a writer did with them is known only of one whose bytes are.
#[tactic(auto, unfolding(definitions::specs::Answers::ascii))]
fn answer_text(answer: Answer) -> &'static [u8]
    ensures { result.now ≡ answer_text (answered answer) }
{
    match answer {
        Ok(None) => b"ok",
        Ok(Some(v)) => verdict_text(v),
        Err(refusal) => refused_text(refusal),
    }
}

#[tactic(auto, unfolding(definitions::specs::Answers::ascii))]
fn verdict_text(v: Verdict) -> &'static [u8]
    ensures { result.now ≡ verdict_text v }
{
    match v {
        Verdict::RejectS => b"reject S",
        Verdict::RejectV => b"reject V",
        Verdict::RejectC => b"reject C",
        Verdict::RejectQ => b"reject Q",
        Verdict::RejectW => b"reject W",
        Verdict::RejectP => b"reject P",
        Verdict::Warn30 => b"warn 30",
        Verdict::Warn10 => b"warn 10",
        Verdict::Accept => b"accept",
    }
}

#[tactic(auto, unfolding(definitions::specs::Answers::ascii, definitions::specs::Answers::decimal_in))]
fn refused_text(refusal: Refusal) -> &'static [u8]
    ensures { result.now ≡ refused_text (refusal_number refusal) }
{
    match refusal {
        Refusal::State => b"refused 1",
        Refusal::Length => b"refused 2",
        Refusal::Kind => b"refused 3",
        Refusal::Name => b"refused 4",
        Refusal::Code => b"refused 5",
        Refusal::Price => b"refused 6",
        Refusal::Time => b"refused 7",
        Refusal::Record => b"refused 8",
        Refusal::NumberTaken => b"refused 9",
        Refusal::NoOpenRow => b"refused 10",
        Refusal::Volume => b"refused 11",
        Refusal::FullDesk => b"refused 12",
        Refusal::Figures => b"refused 13",
    }
}
