// One number of a body by a plan, and the numbers at its first places. Nothing is looked up twice, so every plan costs its place and no more.
#![tactic(auto)]

mod firsts;
mod lookup;

pub use firsts::firsts_plan;
pub use lookup::{lookup_list, lookup_plan};
