// Paper 01, "The lent state": a security and a desk, taken out of the words and put back as one record; and a row, looked for where it stands.
#![tactic(auto)]

mod desk;
mod search;
mod security;

pub use desk::{desk_at, put_desk, row_of};
pub use search::{RowAt, row_with};
pub use security::{change_security, put_security, security_at};
