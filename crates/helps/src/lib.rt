// HelpFlagged(prev, del) and TryMark(del), figure 4, for `lines`. One published line is one function on the table that it reads.

#![tactic(auto)]

ghost use Rattle.std.specs.Prelude.{◌≡◌};
ghost use Rattle.model.specs.HelpFlagged.{with_backlink, help_flagged_1, help_flagged_2, try_mark_2, try_mark_3, try_mark_6, help_flagged_returns, help_flagged_4_help_marked_2, help_line};

use accesses::{
    call_help_flagged, cas, flagged_only, go, go_writing, help_marked_1, help_marked_2, succ_of,
};
use model::{
    Effect, HelpCaller, HelpFrame, HelpLine, InsertFrame, InsertLine, Line, Pending, Row, Stack,
    Write,
};
use tables::Table;
use updates::{delete_7, insert_19};

fn with_backlink(row: Row, prev: u8) -> Row
    ensures { result ≡ with_backlink row prev }
{
    Row {
        backlink: prev,
        ..row
    }
}

// HelpFlagged, line 1.
#[tactic(auto, unfolding(model::specs::HelpFlagged::help_flagged_1))]
fn help_flagged_1<T: Table>(table: &T, f: HelpFrame) -> Effect
    ensures { result ≡ help_flagged_1 (T.rows table.now) f }
{
    let linked_back = with_backlink(table.row(f.del), f.prev);
    go_writing(
        Write::OneRow(f.del, linked_back),
        Line::Help(HelpLine::HelpFlagged2, f),
    )
}

// HelpFlagged, lines 2 and 3.
#[tactic(auto, unfolding(model::specs::HelpFlagged::help_flagged_2))]
fn help_flagged_2<T: Table>(table: &T, f: HelpFrame) -> Effect
    ensures { result ≡ help_flagged_2 (T.rows table.now) f }
{
    if table.row(f.del).succ.mark {
        return go(Line::Help(HelpLine::HelpMarked1, f));
    }
    go(Line::Help(HelpLine::TryMark2, f))
}

// TryMark, line 2.
#[tactic(auto, unfolding(model::specs::HelpFlagged::try_mark_2))]
fn try_mark_2<T: Table>(table: &T, f: HelpFrame) -> Effect
    ensures { result ≡ try_mark_2 (T.rows table.now) f }
{
    let right = table.row(f.del).succ.right;
    go(Line::Help(HelpLine::TryMark3 { right }, f))
}

// TryMark, lines 3 to 5.
#[tactic(auto, unfolding(model::specs::HelpFlagged::try_mark_3))]
fn try_mark_3<T: Table>(table: &T, f: HelpFrame, right: u8) -> Effect
    ensures { result ≡ try_mark_3 (T.rows table.now) f right }
{
    let found = table.row(f.del).succ;
    let unmarked = succ_of(right, false, false);
    let marked = succ_of(right, true, false);
    let write = cas(table, f.del, unmarked, marked);
    if flagged_only(found) {
        let HelpFrame { prev, del, .. } = f;
        let inner = HelpFrame {
            prev: del,
            del: found.right,
            ..f
        };
        return Effect {
            line: call_help_flagged(inner),
            write,
            stack: Stack::Push(Pending { prev, del }),
        };
    }
    go_writing(write, Line::Help(HelpLine::TryMark6, f))
}

// TryMark, line 6.
#[tactic(auto, unfolding(model::specs::HelpFlagged::try_mark_6))]
fn try_mark_6<T: Table>(table: &T, f: HelpFrame) -> Effect
    ensures { result ≡ try_mark_6 (T.rows table.now) f }
{
    if table.row(f.del).succ.mark {
        return go(Line::Help(HelpLine::HelpMarked1, f));
    }
    go(Line::Help(HelpLine::TryMark2, f))
}

// The outermost HelpFlagged has returned.
#[tactic(auto, unfolding(model::specs::HelpFlagged::help_flagged_returns))]
fn help_flagged_returns<T: Table>(table: &T, f: HelpFrame) -> Line
    ensures { result ≡ help_flagged_returns (T.rows table.now) f.key f.element f.caller }
{
    let HelpFrame { key, element, .. } = f;
    match f.caller {
        HelpCaller::Insert8 { prev, new } => insert_19(InsertFrame { key, element, prev }, new),
        HelpCaller::Insert16 { prev, new } => {
            let frame = InsertFrame { key, element, prev };
            Line::Insert(InsertLine::Insert17 { new }, frame)
        }
        HelpCaller::Delete6 { target, result } => delete_7(table, target, result),
    }
}

// HelpFlagged's line 4, the second access of its HelpMarked, and the return. `count` helps are pending, the last of them `last`.
#[tactic(auto, unfolding(model::specs::HelpFlagged::help_flagged_4_help_marked_2))]
fn help_flagged_4_help_marked_2<T: Table>(
    table: &T,
    count: u8,
    last: Pending,
    f: HelpFrame,
    right: u8,
) -> Effect
    ensures { result ≡ help_flagged_4_help_marked_2 (T.rows table.now) count last f right }
{
    let write = help_marked_2(table, f.prev, f.del, right);
    if count == 0 {
        return go_writing(write, help_flagged_returns(table, f));
    }
    let Pending { prev, del } = last;
    Effect {
        line: Line::Help(HelpLine::TryMark6, HelpFrame { prev, del, ..f }),
        write,
        stack: Stack::Pop,
    }
}

// Which function belongs to which line.
#[tactic(auto, unfolding(model::specs::HelpFlagged::help_line))]
pub fn help_line<T: Table>(
    table: &T,
    count: u8,
    last: Pending,
    f: HelpFrame,
    line: HelpLine,
) -> Effect
    ensures { result ≡ help_line (T.rows table.now) count last f line }
{
    match line {
        HelpLine::HelpFlagged1 => help_flagged_1(table, f),
        HelpLine::HelpFlagged2 => help_flagged_2(table, f),
        HelpLine::TryMark2 => try_mark_2(table, f),
        HelpLine::TryMark3 { right } => try_mark_3(table, f, right),
        HelpLine::TryMark6 => try_mark_6(table, f),
        HelpLine::HelpMarked1 => {
            let right = help_marked_1(table, f.del);
            go(Line::Help(HelpLine::HelpMarked2 { right }, f))
        }
        HelpLine::HelpMarked2 { right } => {
            help_flagged_4_help_marked_2(table, count, last, f, right)
        }
    }
}
