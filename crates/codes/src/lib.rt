// The codes behind one name for each thing that is done with a code: the one place that lists them. Each walk over units stands here once, for every
// code: strict reading, and what lookups ask.
#![tactic(auto)]

pub mod directly;
pub mod dispatch;
pub mod looking;
pub mod reading;
pub mod stretch;

pub use dispatch::write_code;
pub use looking::{firsts_code, lookup_code, seek_code, total_code};
use meaning::Refusal;
pub use reading::read_code;

// How many numbers stand at the first places, and the refusal after them where not all are there.
#[derive(Clone, Copy)]
pub struct First {
    pub count: usize,
    pub stop: Option<Refusal>,
}
