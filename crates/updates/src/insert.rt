// Insert, figure 5.

ghost use Rattle.std.specs.Prelude.{◌≡◌, set};
ghost use Rattle.model.specs.State.{row_at};
ghost use Rattle.model.specs.Insert.{insert_2, insert_20, insert_4, insert_6, insert_15, linked_row, insert_10_11, insert_19, insert_17, insert_18, insert_line};

use accesses::{
    call_help_flagged, call_search_from, finish, flagged_only, go, go_writing, has_key,
    lowest_free, same_succ, succ_of, with_succ,
};
use model::{
    Answer, Effect, HelpCaller, HelpFrame, InsertFrame, InsertLine, Line, Row, SearchCaller,
    SearchFrame, Standing, Succ, Write, free_row,
};
use tables::Table;

// Lines 2 and 3.
#[tactic(auto, unfolding(model::specs::Insert::insert_2))]
pub fn insert_2<T: Table>(table: &T, f: InsertFrame, next: u8) -> Effect
    ensures { result ≡ insert_2 (T.rows table.now) f.key f.element f.prev next }
{
    if has_key(table, f.prev, f.key) {
        return finish(Answer::Duplicate);
    }
    go(Line::Insert(InsertLine::Insert4 { next }, f))
}

// Lines 20 to 22.
#[tactic(auto, unfolding(model::specs::Insert::insert_20))]
pub fn insert_20<T: Table>(table: &T, f: InsertFrame, next: u8, new: u8) -> Effect
    ensures { result ≡ insert_20 (T.rows table.now) f.key f.element f.prev next new }
{
    if has_key(table, f.prev, f.key) {
        let given_back = Write::OneRow(new, free_row());
        return go_writing(given_back, Line::Idle(Answer::Duplicate));
    }
    go(Line::Insert(InsertLine::Insert6 { next, new }, f))
}

// Line 4.
#[tactic(auto, unfolding(model::specs::Insert::insert_4))]
fn insert_4<T: Table>(table: &T, me: u8, f: InsertFrame, next: u8) -> Effect
    ensures { result ≡ insert_4 (T.rows table.now) me f next }
{
    let free = lowest_free(table);
    if free < 128 {
        let row = Row {
            key: f.key,
            element: f.element,
            standing: Standing::Held(me),
            ..free_row()
        };
        let line = InsertLine::Insert6 { next, new: free };
        return go_writing(Write::OneRow(free, row), Line::Insert(line, f));
    }
    finish(Answer::Full)
}

// Lines 6 to 8.
#[tactic(auto, unfolding(model::specs::Insert::insert_6))]
fn insert_6<T: Table>(table: &T, f: InsertFrame, next: u8, new: u8) -> Effect
    ensures { result ≡ insert_6 (T.rows table.now) f next new }
{
    let InsertFrame { key, element, prev } = f;
    let found = table.row(prev).succ;
    if found.flag {
        return go(call_help_flagged(HelpFrame {
            key,
            element,
            prev,
            del: found.right,
            caller: HelpCaller::Insert8 { prev, new },
        }));
    }
    go(Line::Insert(InsertLine::Insert11 { next, new }, f))
}

// Lines 15 and 16.
#[tactic(auto, unfolding(model::specs::Insert::insert_15))]
fn insert_15(f: InsertFrame, new: u8, res: Succ) -> Line
    ensures { result ≡ insert_15 f new res }
{
    let InsertFrame { key, element, prev } = f;
    if flagged_only(res) {
        return call_help_flagged(HelpFrame {
            key,
            element,
            prev,
            del: res.right,
            caller: HelpCaller::Insert16 { prev, new },
        });
    }
    Line::Insert(InsertLine::Insert17 { new }, f)
}

fn linked_row(row: Row) -> Row
    ensures { result ≡ linked_row row }
{
    Row {
        standing: Standing::Linked,
        ..row
    }
}

// What stands at prev after a store to the row new: a state made by hand may have them the same.
fn after_store<T: Table>(table: &T, prev: u8, new: u8, stored: Row) -> Row
    ensures { result ≡ row_at (set (T.rows table.now) new stored) prev }
{
    let row = table.row(prev);
    if prev == new && new < 128 {
        stored
    } else {
        row
    }
}

// Lines 10 to 13, one step.
#[tactic(auto, unfolding(model::specs::Insert::insert_10_11))]
fn insert_10_11<T: Table>(table: &T, f: InsertFrame, next: u8, new: u8) -> Effect
    ensures { result ≡ insert_10_11 (T.rows table.now) f next new }
{
    let expected = succ_of(next, false, false);
    let stored = with_succ(table.row(new), expected);
    let found = after_store(table, f.prev, new, stored).succ;
    if same_succ(found, expected) {
        let linked = linked_row(stored);
        let before = after_store(table, f.prev, new, linked);
        let swapped = with_succ(before, succ_of(new, false, false));
        let write = Write::TwoRows(new, linked, f.prev, swapped);
        return go_writing(write, Line::Idle(Answer::Added));
    }
    go_writing(Write::OneRow(new, stored), insert_15(f, new, found))
}

// Line 19.
pub fn insert_19(f: InsertFrame, new: u8) -> Line
    ensures { result ≡ insert_19 f.key f.element f.prev new }
{
    call_search_from(SearchFrame {
        key: f.key,
        element: f.element,
        curr: f.prev,
        caller: SearchCaller::Insert19 { new },
    })
}

// Line 17.
#[tactic(auto, unfolding(model::specs::Insert::insert_17))]
fn insert_17<T: Table>(table: &T, f: InsertFrame, new: u8) -> Effect
    ensures { result ≡ insert_17 (T.rows table.now) f new }
{
    if table.row(f.prev).succ.mark {
        return go(Line::Insert(InsertLine::Insert18 { new }, f));
    }
    go(insert_19(f, new))
}

// Line 18.
#[tactic(auto, unfolding(model::specs::Insert::insert_18))]
fn insert_18<T: Table>(table: &T, f: InsertFrame, new: u8) -> Effect
    ensures { result ≡ insert_18 (T.rows table.now) f new }
{
    let prev = table.row(f.prev).backlink;
    go(Line::Insert(InsertLine::Insert17 { new }, InsertFrame { prev, ..f }))
}

// Which function belongs to which line.
#[tactic(auto, unfolding(model::specs::Insert::insert_line))]
pub fn insert_line<T: Table>(table: &T, me: u8, f: InsertFrame, line: InsertLine) -> Effect
    ensures { result ≡ insert_line (T.rows table.now) me f line }
{
    match line {
        InsertLine::Insert4 { next } => insert_4(table, me, f, next),
        InsertLine::Insert6 { next, new } => insert_6(table, f, next, new),
        InsertLine::Insert11 { next, new } => insert_10_11(table, f, next, new),
        InsertLine::Insert17 { new } => insert_17(table, f, new),
        InsertLine::Insert18 { new } => insert_18(table, f, new),
    }
}
