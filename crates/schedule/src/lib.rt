// The run of a schedule file, for whoever prints it: every byte that is printed, event by event.
//
// A file is checked whole (`schedule_file::check`). If it is refused, `refused_file` is all that is printed; else `heading`, the text of
// each event of its `Run`, and `last_line`. proofs/Whole.antt shows that these are the bytes that the model prints for the file.

#![tactic(auto)]

mod printed;
mod rows;
mod run;
mod text;

pub use printed::{heading, last_line, refused_file};
pub use run::{Event, Run, next_event};
pub use text::Text;
