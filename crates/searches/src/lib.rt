// SearchFrom(k, curr) and Search, figure 3, for `lines`. One published line is one function on the table that it reads.

#![tactic(auto)]

ghost use Rattle.std.specs.Prelude.{◌≡◌};
ghost use Rattle.model.specs.SearchFrom.{strict, reaches, search_2, search_from_returns, search_from_10, search_from_2, search_from_7, search_from_1, search_from_3_next_mark, search_from_3_curr_mark, search_from_3_curr_right, search_from_4, search_from_6, search_from_9, search_line};

use accesses::{
    finish, go, go_writing, has_key, help_marked_1, help_marked_2, key_at_most, key_below,
};
use model::{Answer, Effect, FlagFrame, InsertFrame, Line, SearchCaller, SearchFrame, SearchLine};
use tables::Table;
use updates::{delete_2, insert_2, insert_20, try_flag_12};

// Search, lines 2 to 5.
#[tactic(auto, unfolding(model::specs::SearchFrom::search_2))]
fn search_2<T: Table>(table: &T, key: u32, curr: u8) -> Effect
    ensures { result ≡ search_2 (T.rows table.now) key curr }
{
    if has_key(table, curr, key) {
        return finish(Answer::Found(table.row(curr).element));
    }
    finish(Answer::Absent)
}

// The callers of the "k − ε" form.
fn strict(caller: SearchCaller) -> bool
    ensures { result ≡ strict caller }
{
    match caller {
        SearchCaller::Search1 | SearchCaller::Insert1 | SearchCaller::Insert19 { .. } => false,
        SearchCaller::Delete1 | SearchCaller::TryFlag11 { .. } => true,
    }
}

// The test of lines 2 and 7: next.key ≤ k.
#[tactic(auto, unfolding(model::specs::SearchFrom::reaches))]
fn reaches<T: Table>(table: &T, f: SearchFrame, next: u8) -> bool
    ensures { result ≡ reaches (T.rows table.now) f next }
{
    if strict(f.caller) {
        return key_below(table, next, f.key);
    }
    key_at_most(table, next, f.key)
}

// Line 10 returns (curr, next) to the caller.
#[tactic(auto, unfolding(model::specs::SearchFrom::search_from_10, model::specs::SearchFrom::search_from_returns))]
fn search_from_10<T: Table>(table: &T, f: SearchFrame, next: u8) -> Effect
    ensures { result ≡ search_from_10 (T.rows table.now) f next }
{
    let SearchFrame {
        key,
        element,
        curr,
        caller,
    } = f;
    let prev = curr;
    let insert = InsertFrame { key, element, prev };
    match caller {
        SearchCaller::Search1 => search_2(table, key, curr),
        SearchCaller::Insert1 => insert_2(table, insert, next),
        SearchCaller::Insert19 { new } => insert_20(table, insert, next, new),
        SearchCaller::Delete1 => delete_2(table, key, prev, next),
        SearchCaller::TryFlag11 { target } => try_flag_12(FlagFrame { key, prev, target }, next),
    }
}

// Line 2.
#[tactic(auto, unfolding(model::specs::SearchFrom::search_from_2))]
fn search_from_2<T: Table>(table: &T, f: SearchFrame, next: u8) -> Effect
    ensures { result ≡ search_from_2 (T.rows table.now) f next }
{
    if reaches(table, f, next) {
        return go(Line::Search(SearchLine::SearchFrom3NextMark { next }, f));
    }
    search_from_10(table, f, next)
}

// Lines 7 and 8.
#[tactic(auto, unfolding(model::specs::SearchFrom::search_from_7))]
fn search_from_7<T: Table>(table: &T, f: SearchFrame, next: u8) -> Effect
    ensures { result ≡ search_from_7 (T.rows table.now) f next }
{
    if reaches(table, f, next) {
        let moved = SearchFrame { curr: next, ..f };
        return go(Line::Search(SearchLine::SearchFrom9, moved));
    }
    search_from_10(table, f, next)
}

// Line 1.
#[tactic(auto, unfolding(model::specs::SearchFrom::search_from_1))]
fn search_from_1<T: Table>(table: &T, f: SearchFrame) -> Effect
    ensures { result ≡ search_from_1 (T.rows table.now) f }
{
    search_from_2(table, f, table.row(f.curr).succ.right)
}

// Line 3, first read.
#[tactic(auto, unfolding(model::specs::SearchFrom::search_from_3_next_mark))]
fn search_from_3_next_mark<T: Table>(table: &T, f: SearchFrame, next: u8) -> Effect
    ensures { result ≡ search_from_3_next_mark (T.rows table.now) f next }
{
    if table.row(next).succ.mark {
        return go(Line::Search(SearchLine::SearchFrom3CurrMark { next }, f));
    }
    search_from_7(table, f, next)
}

// Line 3, second read.
#[tactic(auto, unfolding(model::specs::SearchFrom::search_from_3_curr_mark))]
fn search_from_3_curr_mark<T: Table>(table: &T, f: SearchFrame, next: u8) -> Effect
    ensures { result ≡ search_from_3_curr_mark (T.rows table.now) f next }
{
    if table.row(f.curr).succ.mark {
        return go(Line::Search(SearchLine::SearchFrom3CurrRight { next }, f));
    }
    go(Line::Search(SearchLine::SearchFrom4 { next }, f))
}

// Line 3, third read.
#[tactic(auto, unfolding(model::specs::SearchFrom::search_from_3_curr_right))]
fn search_from_3_curr_right<T: Table>(table: &T, f: SearchFrame, next: u8) -> Effect
    ensures { result ≡ search_from_3_curr_right (T.rows table.now) f next }
{
    if table.row(f.curr).succ.right == next {
        return search_from_7(table, f, next);
    }
    go(Line::Search(SearchLine::SearchFrom4 { next }, f))
}

// Line 4.
#[tactic(auto, unfolding(model::specs::SearchFrom::search_from_4))]
fn search_from_4<T: Table>(table: &T, f: SearchFrame, next: u8) -> Effect
    ensures { result ≡ search_from_4 (T.rows table.now) f next }
{
    if table.row(f.curr).succ.right == next {
        return go(Line::Search(SearchLine::SearchFrom5HelpMarked1 { next }, f));
    }
    go(Line::Search(SearchLine::SearchFrom6, f))
}

// Line 6.
#[tactic(auto, unfolding(model::specs::SearchFrom::search_from_6))]
fn search_from_6<T: Table>(table: &T, f: SearchFrame) -> Effect
    ensures { result ≡ search_from_6 (T.rows table.now) f }
{
    let next = table.row(f.curr).succ.right;
    go(Line::Search(SearchLine::SearchFrom3NextMark { next }, f))
}

// Line 9.
#[tactic(auto, unfolding(model::specs::SearchFrom::search_from_9))]
fn search_from_9<T: Table>(table: &T, f: SearchFrame) -> Effect
    ensures { result ≡ search_from_9 (T.rows table.now) f }
{
    search_from_2(table, f, table.row(f.curr).succ.right)
}

// Which function belongs to which line. The two accesses of line 5 are HelpMarked's.
#[tactic(auto, unfolding(model::specs::SearchFrom::search_line))]
pub fn search_line<T: Table>(table: &T, f: SearchFrame, line: SearchLine) -> Effect
    ensures { result ≡ search_line (T.rows table.now) f line }
{
    match line {
        SearchLine::SearchFrom1 => search_from_1(table, f),
        SearchLine::SearchFrom3NextMark { next } => search_from_3_next_mark(table, f, next),
        SearchLine::SearchFrom3CurrMark { next } => search_from_3_curr_mark(table, f, next),
        SearchLine::SearchFrom3CurrRight { next } => search_from_3_curr_right(table, f, next),
        SearchLine::SearchFrom4 { next } => search_from_4(table, f, next),
        SearchLine::SearchFrom5HelpMarked1 { next } => {
            let right = help_marked_1(table, next);
            go(Line::Search(SearchLine::SearchFrom5HelpMarked2 { next, right }, f))
        }
        SearchLine::SearchFrom5HelpMarked2 { next, right } => {
            let write = help_marked_2(table, f.curr, next, right);
            go_writing(write, Line::Search(SearchLine::SearchFrom6, f))
        }
        SearchLine::SearchFrom6 => search_from_6(table, f),
        SearchLine::SearchFrom9 => search_from_9(table, f),
    }
}
