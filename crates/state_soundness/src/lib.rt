// Paper 01, "The lent state": whether a record is sound, and whether all are.
#![tactic(auto)]

mod every;
mod rows;
mod sound;

pub use every::all_sound;
pub use rows::sound_desk_at;
pub use sound::{priced_as, sound_security_at};
