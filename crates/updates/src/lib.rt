// The lines of the two requests that change the list: Insert, and Delete with its TryFlag. One published line is one function on the
// table that it reads; `searches` and `helps` call them where SearchFrom and HelpFlagged return, and `lines` chooses the line.

#![tactic(auto)]

mod delete;
mod insert;

pub use delete::{delete_2, delete_7, flag_line, try_flag_12};
pub use insert::{insert_2, insert_19, insert_20, insert_line};
