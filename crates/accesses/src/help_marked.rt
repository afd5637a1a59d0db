// HelpMarked(prev, del), figure 3, which SearchFrom calls at its line 5 and HelpFlagged at its line 4.

ghost use Rattle.std.specs.Prelude.{◌≡◌};
ghost use Rattle.model.specs.HelpMarked.{help_marked_1, help_marked_2};

use crate::swap::{cas, succ_of};
use model::Write;
use tables::Table;

// Line 1.
#[tactic(auto, unfolding(model::specs::HelpMarked::help_marked_1))]
pub fn help_marked_1<T: Table>(table: &T, del: u8) -> u8
    ensures { result ≡ help_marked_1 (T.rows table.now) del }
{
    table.row(del).succ.right
}

// Line 2.
#[tactic(auto, unfolding(model::specs::HelpMarked::help_marked_2))]
pub fn help_marked_2<T: Table>(table: &T, prev: u8, del: u8, right: u8) -> Write
    ensures { result ≡ help_marked_2 (T.rows table.now) prev del right }
{
    cas(
        table,
        prev,
        succ_of(del, false, true),
        succ_of(right, false, false),
    )
}
