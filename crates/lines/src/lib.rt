// Every line that a worker can wait at, for `engine`: what it does with the rows of the table, `act`. Nothing is stored here: the caller
// stores what the effect says.

#![tactic(auto)]

ghost use Rattle.std.specs.Prelude.{◌≡◌};
ghost use Rattle.model.specs.Step.{line_effect};

use accesses::go;
use helps::help_line;
use model::{Effect, Line, Pending};
use searches::search_line;
use tables::Table;
use updates::{flag_line, insert_line};

// What the line of worker `me` does. `count` helps are pending, the last of them `last`.
#[tactic(auto, unfolding(model::specs::Step::line_effect))]
pub fn act<T: Table>(table: &T, me: u8, count: u8, last: Pending, line: Line) -> Effect
    ensures { result ≡ line_effect (T.rows table.now) me count last line }
{
    match line {
        Line::Idle(answer) => go(Line::Idle(answer)),
        Line::Search(line, f) => search_line(table, f, line),
        Line::Insert(line, f) => insert_line(table, me, f, line),
        Line::Flag(line, f) => flag_line(table, f, line),
        Line::Help(line, f) => help_line(table, count, last, f, line),
    }
}
