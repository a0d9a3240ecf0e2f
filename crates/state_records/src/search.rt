// Conditions 9 to 11 ask about one order number. Its row is looked for where the desk stands in the words, so that no desk is taken out only to be asked.
ghost use Rattle.std.specs.Prelude.{◌≡◌, ◌+◌, ◌*◌, ◌≤◌, length};
ghost use Rattle.definitions.specs.Codes.{desk_rows};
ghost use Rattle.definitions.specs.State.{row_size, desk_size, header_of, desk_place, rows_of, desk_at};
ghost use Rattle.state_records.specs.Search.{row_with};

use crate::desk::row_of;
use definitions::Row;
use definitions::codes::{COUNTERS_SIZE, DESK_ROWS, ROW_SIZE, ROWS_SIZE};
use desk_rows::free_row;
use state::desk_place_in;

// What a look through a desk's rows for a number ends at: the row that has it, or the first free row; past the last row, a free row.
// No Option: the definition of the same name says a place and a row, and a free row answers each of these conditions with no.
#[derive(Clone, Copy)]
pub struct RowAt {
    pub place: usize,
    pub row: Row,
}

#[tactic(auto, using(crate::proofs::SearchLaws::sought_next, crate::proofs::SearchLaws::sought_here, crate::proofs::SearchLaws::sought_end))]
fn row_in(rows: &[u32; ROWS_SIZE], number: u32) -> RowAt
    ensures { result ≡ row_with number (rows_of desk_rows rows.now) }
{
    for i in 0..DESK_ROWS {
        let at = ROW_SIZE * i;
        if (rows[at + 1] == number) | (rows[at] == 0) {
            return RowAt {
                place: i,
                row: row_of(&rows[at..at + ROW_SIZE]),
            };
        }
    }
    RowAt {
        place: DESK_ROWS,
        row: free_row(),
    }
}

pub fn row_with(words: &[u32], k: u32, number: u32) -> RowAt
    requires { desk_place (header_of words.now).securities k + desk_size ≤ length words.now }
    ensures { result ≡ row_with number (desk_at words.now k).rows }
{
    let from = desk_place_in(words, k) + COUNTERS_SIZE;
    let rows = <&[u32; ROWS_SIZE]>::try_from(&words[from..from + ROWS_SIZE]).unwrap();
    row_in(rows, number)
}
