// Paper 01: "marked rows stand first and free rows are all zero; a marked row has a number above 0 that no other marked row of its desk has". A desk is
// tested where it stands in the words, so that no desk is taken out only to be tested, and the free rows are tested as words.
ghost use Rattle.std.specs.Prelude.{◌≡◌, ◌+◌, ◌*◌, ◌≤◌, length};
ghost use Rattle.definitions.specs.Codes.{desk_rows};
ghost use Rattle.definitions.specs.Lists.{any, all};
ghost use Rattle.definitions.specs.State.{row_size, desk_size, header_of, rows_of, desk_place};
ghost use Rattle.definitions.specs.Gate.{sound_desk_at};
ghost use Rattle.state_soundness.specs.Tested.{equals, has_number, Leading, sound_rows};

use crate::sound::sound_marked;
use definitions::codes::{COUNTERS_SIZE, DESK_ROWS, ROW_SIZE, ROWS_SIZE};
use state::{desk_place_in, header_of};
use state_records::row_of;

// The words are OR-ed together and compared once: a comparison of each costs more.
fn all_zero(words: &[u32]) -> bool
    ensures { result ≡ all (equals 0) words.now }
{
    words.iter().fold(0, |bits, word| bits | *word) == 0
}

fn number_before(rows: &[u32; ROWS_SIZE], count: usize, number: u32) -> bool
    requires { count ≤ desk_rows }
    ensures { result ≡ any (has_number number) (rows_of count rows.now) }
{
    for i in 0..count {
        if rows[ROW_SIZE * i + 1] == number {
            return true;
        }
    }
    false
}

// A number above all before it is compared with none: the numbers of orders mostly ascend.
fn leading_sound(securities: u32, clock: u32, rows: &[u32; ROWS_SIZE]) -> usize
    ensures { Leading securities clock rows.now result }
{
    let mut largest = 0;
    for i in 0..DESK_ROWS {
        let at = ROW_SIZE * i;
        let row = row_of(&rows[at..at + ROW_SIZE]);
        if !sound_marked(securities, clock, row) {
            return i;
        }
        if largest < row.number {
            largest = row.number;
        } else if number_before(rows, i, row.number) {
            return i;
        }
    }
    DESK_ROWS
}

// The rest begins with a free row, or with a marked one that is unsound or has a number that stands before it: such a row's mark is not 0, so that the
// test of the free rows refuses it too.
fn sound_rows(securities: u32, clock: u32, rows: &[u32; ROWS_SIZE]) -> bool
    ensures { result ≡ sound_rows securities clock (rows_of desk_rows rows.now) }
{
    let count = leading_sound(securities, clock, rows);
    all_zero(&rows[ROW_SIZE * count..])
}

// The rows stand behind the counters, of which every value is sound.
pub fn sound_desk_at(words: &[u32], k: u32) -> bool
    requires { desk_place (header_of words.now).securities k + desk_size ≤ length words.now }
    ensures { result ≡ sound_desk_at words.now k }
{
    let h = header_of(words);
    let from = desk_place_in(words, k) + COUNTERS_SIZE;
    let rows = <&[u32; ROWS_SIZE]>::try_from(&words[from..from + ROWS_SIZE]).unwrap();
    sound_rows(h.securities, h.clock, rows)
}
