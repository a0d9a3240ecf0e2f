// Kinds 6, 7 and 8 change one row of a desk, the one that they name by its number.
#![tactic(auto)]

ghost use Rattle.std.specs.Prelude.{◌≡◌, ◌+◌, ◌≤◌, ◌<◌, length};
ghost use Rattle.definitions.specs.Codes.{desk_rows};
ghost use Rattle.definitions.specs.State.{desk_at, desk_place, desk_size, header_of, put_desk};
ghost use Rattle.definitions.specs.Desks.{close_up, with_rows};
ghost use Rattle.desks.specs.Place.{changed_at};

use definitions::Row;

// The desk is taken out once, and put back with the row at a place as the event leaves it. Handed to a closure it would be copied once more.
pub fn change_row(words: &mut [u32], k: u32, place: usize, left: Row)
    requires { (desk_place (header_of words.old).securities k + desk_size ≤ length words.old) × (place < desk_rows) × (close_up (desk_at words.old k).rows ≡ (desk_at words.old k).rows) }
    ensures { words.new ≡ put_desk words.old k (with_rows (changed_at place left (desk_at words.old k).rows) (desk_at words.old k)) }
{
    let d = state_records::desk_at(words, k);
    state_records::put_desk(words, k, desks::changed_at(place, left, d));
}
