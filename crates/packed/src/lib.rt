// The catalogue with its rows as words in memory that the caller lends, and its workers as records: submit and step on them, the step of
// one worker, and a whole catalogue packed and unpacked. Any words and any numbers may be given, but that the step of one worker asks for
// words that pack rows. docs/PACKED.md has the layout.

#![tactic(auto)]

mod calls;
mod steps;
mod whole;

pub use calls::{call, step, submit};
pub use steps::{Moved, step_worker};
pub use whole::{pack, unpack};
