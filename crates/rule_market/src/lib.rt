// Paper 01, "Verdicts, first that applies": the rules that read the market and one order, S, V, C, Q, warn 30 and warn 10.
#![tactic(auto)]

mod hours;
mod percents;
mod positions;
mod range;
mod size;

pub use hours::rule_s;
pub use percents::{rule_q, warn_30};
pub use positions::warn_10;
pub use range::rule_c;
pub use size::rule_v;
