// Paper 01, "The lent state": where its records stand in the words, condition 1, and a fresh state.
#![tactic(auto)]

mod fresh;
mod words;

pub use fresh::make_fresh;
pub use words::{
    copy_in, desk_place, desk_place_in, header_of, security_place, sizes_fit, state_fits,
};
