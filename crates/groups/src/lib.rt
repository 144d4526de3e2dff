// Codes 2, 4 and 7: numbers in groups, each of control bytes and data. In code 2, group of four, the data follows its one control byte; in code 4,
// Stream VByte, all control bytes come first, then all data; in code 7, four-wise null suppression, the data of 16 numbers follows their four masks.
#![tactic(auto)]

mod group;
mod put;
mod whole;

pub use group::{Form, unit};
pub use put::write;
pub use whole::take;
