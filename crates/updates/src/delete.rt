// Delete, figure 4, and TryFlag, figure 5.

ghost use Rattle.std.specs.Prelude.{◌≡◌};
ghost use Rattle.model.specs.Delete.{delete_2, delete_6, delete_7, try_flag_2, try_flag_5, try_flag_4, try_flag_9, try_flag_10, try_flag_12, flag_line};

use accesses::{
    call_help_flagged, call_search_from, call_try_flag, cas, finish, go, go_writing, has_key,
    same_succ, succ_of,
};
use model::{
    Answer, Effect, FlagFrame, FlagLine, HelpCaller, HelpFrame, Line, SearchCaller, SearchFrame,
    Succ,
};
use tables::Table;

// Delete, lines 2 to 4.
#[tactic(auto, unfolding(model::specs::Delete::delete_2))]
pub fn delete_2<T: Table>(table: &T, key: u32, prev: u8, del: u8) -> Effect
    ensures { result ≡ delete_2 (T.rows table.now) key prev del }
{
    if has_key(table, del, key) {
        let target = del;
        return go(call_try_flag(FlagFrame { key, prev, target }));
    }
    finish(Answer::Absent)
}

// Delete, lines 5 and 6.
fn delete_6(f: FlagFrame, res: bool) -> Line
    ensures { result ≡ delete_6 f res }
{
    call_help_flagged(HelpFrame {
        key: f.key,
        element: 0,
        prev: f.prev,
        del: f.target,
        caller: HelpCaller::Delete6 {
            target: f.target,
            result: res,
        },
    })
}

// Delete, lines 7 to 9.
#[tactic(auto, unfolding(model::specs::Delete::delete_7))]
pub fn delete_7<T: Table>(table: &T, target: u8, res: bool) -> Line
    ensures { result ≡ delete_7 (T.rows table.now) target res }
{
    if res {
        return Line::Idle(Answer::Removed(table.row(target).element));
    }
    Line::Idle(Answer::Absent)
}

// TryFlag, lines 2 and 3.
#[tactic(auto, unfolding(model::specs::Delete::try_flag_2))]
fn try_flag_2<T: Table>(table: &T, f: FlagFrame) -> Effect
    ensures { result ≡ try_flag_2 (T.rows table.now) f }
{
    let found = table.row(f.prev).succ;
    if same_succ(found, succ_of(f.target, false, true)) {
        return go(delete_6(f, false));
    }
    go(Line::Flag(FlagLine::TryFlag4, f))
}

// TryFlag, lines 5 to 8.
#[tactic(auto, unfolding(model::specs::Delete::try_flag_5))]
fn try_flag_5(f: FlagFrame, res: Succ) -> Line
    ensures { result ≡ try_flag_5 f res }
{
    if same_succ(res, succ_of(f.target, false, false)) {
        return delete_6(f, true);
    }
    if same_succ(res, succ_of(f.target, false, true)) {
        return delete_6(f, false);
    }
    Line::Flag(FlagLine::TryFlag9, f)
}

// TryFlag, line 4.
#[tactic(auto, unfolding(model::specs::Delete::try_flag_4))]
fn try_flag_4<T: Table>(table: &T, f: FlagFrame) -> Effect
    ensures { result ≡ try_flag_4 (T.rows table.now) f }
{
    let unflagged = succ_of(f.target, false, false);
    let flagged = succ_of(f.target, false, true);
    let write = cas(table, f.prev, unflagged, flagged);
    go_writing(write, try_flag_5(f, table.row(f.prev).succ))
}

// TryFlag, lines 9 and 11.
#[tactic(auto, unfolding(model::specs::Delete::try_flag_9))]
fn try_flag_9<T: Table>(table: &T, f: FlagFrame) -> Effect
    ensures { result ≡ try_flag_9 (T.rows table.now) f }
{
    if table.row(f.prev).succ.mark {
        return go(Line::Flag(FlagLine::TryFlag10, f));
    }
    go(call_search_from(SearchFrame {
        key: f.key,
        element: 0,
        curr: f.prev,
        caller: SearchCaller::TryFlag11 { target: f.target },
    }))
}

// TryFlag, line 10.
#[tactic(auto, unfolding(model::specs::Delete::try_flag_10))]
fn try_flag_10<T: Table>(table: &T, f: FlagFrame) -> Effect
    ensures { result ≡ try_flag_10 (T.rows table.now) f }
{
    let prev = table.row(f.prev).backlink;
    go(Line::Flag(FlagLine::TryFlag9, FlagFrame { prev, ..f }))
}

// TryFlag, lines 12 and 13.
#[tactic(auto, unfolding(model::specs::Delete::try_flag_12))]
pub fn try_flag_12(f: FlagFrame, del: u8) -> Effect
    ensures { result ≡ try_flag_12 f.key f.prev del f.target }
{
    if del == f.target {
        return go(call_try_flag(f));
    }
    finish(Answer::Absent)
}

// Which function belongs to which line. Every access is to prev.
#[tactic(auto, unfolding(model::specs::Delete::flag_line))]
pub fn flag_line<T: Table>(table: &T, f: FlagFrame, line: FlagLine) -> Effect
    ensures { result ≡ flag_line (T.rows table.now) f line }
{
    match line {
        FlagLine::TryFlag2 => try_flag_2(table, f),
        FlagLine::TryFlag4 => try_flag_4(table, f),
        FlagLine::TryFlag9 => try_flag_9(table, f),
        FlagLine::TryFlag10 => try_flag_10(table, f),
    }
}
