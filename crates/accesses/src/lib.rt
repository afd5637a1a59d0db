// What the published lines are made of, for the crates of the lines and for `engine`: the order of rows, C&S, HelpMarked's two accesses,
// the lowest free row, a line's effect with the calls that routines make of each other, the line with which a request begins, and a
// worker's record.
//
// A function that reads rows takes any table, and its contract cites the definition on the rows that the table stands for.

#![tactic(auto)]

mod effects;
mod free_rows;
mod help_marked;
mod order;
mod requests;
mod swap;
mod workers;

pub use effects::{call_help_flagged, call_search_from, call_try_flag, finish, go, go_writing};
pub use free_rows::lowest_free;
pub use help_marked::{help_marked_1, help_marked_2};
pub use order::{has_key, key_at_most, key_below};
pub use requests::{Request, first_line};
pub use swap::{cas, flagged_only, same_succ, succ_of, with_succ};
pub use workers::{help_at, is_idle, ninth_help, with_help};
