// When a state is well formed, for `engine` and whoever is given a state: each clause of document 01 as one test, put to every row and
// every worker.

#![tactic(auto)]

ghost use Rattle.std.specs.Prelude.{◌≡◌};
ghost use Rattle.model.specs.WellFormed.{all_from, is_row, row_numbers, search_caller_numbers, search_line_numbers, insert_line_numbers, help_caller_numbers, help_line_numbers, line_numbers, pending_numbers, not_both, ends_linked, few_helps, helps_inside, held_in_search, held_in_insert, held_in_help, held_row, holder_names, named_is_held, row_well, worker_well, well_formed};

use model::{
    Catalogue, HelpCaller, HelpLine, InsertLine, Line, Pending, Row, SearchCaller, SearchLine,
    Standing, Succ, Worker,
};
use tables::Table;

// ---- Every row number is below 128 ----

fn is_row(i: u8) -> bool
    ensures { result ≡ is_row i }
{
    i < 128
}

fn row_numbers(row: Row) -> bool
    ensures { result ≡ row_numbers row }
{
    is_row(row.succ.right) && is_row(row.backlink)
}

fn search_caller_numbers(caller: SearchCaller) -> bool
    ensures { result ≡ search_caller_numbers caller }
{
    match caller {
        SearchCaller::Search1 | SearchCaller::Insert1 | SearchCaller::Delete1 => true,
        SearchCaller::Insert19 { new } => is_row(new),
        SearchCaller::TryFlag11 { target } => is_row(target),
    }
}

fn search_line_numbers(line: SearchLine) -> bool
    ensures { result ≡ search_line_numbers line }
{
    match line {
        SearchLine::SearchFrom1 | SearchLine::SearchFrom6 | SearchLine::SearchFrom9 => true,
        SearchLine::SearchFrom3NextMark { next }
        | SearchLine::SearchFrom3CurrMark { next }
        | SearchLine::SearchFrom3CurrRight { next }
        | SearchLine::SearchFrom4 { next }
        | SearchLine::SearchFrom5HelpMarked1 { next } => is_row(next),
        SearchLine::SearchFrom5HelpMarked2 { next, right } => is_row(next) && is_row(right),
    }
}

fn insert_line_numbers(line: InsertLine) -> bool
    ensures { result ≡ insert_line_numbers line }
{
    match line {
        InsertLine::Insert4 { next } => is_row(next),
        InsertLine::Insert6 { next, new } | InsertLine::Insert11 { next, new } => {
            is_row(next) && is_row(new)
        }
        InsertLine::Insert17 { new } | InsertLine::Insert18 { new } => is_row(new),
    }
}

fn help_caller_numbers(caller: HelpCaller) -> bool
    ensures { result ≡ help_caller_numbers caller }
{
    match caller {
        HelpCaller::Insert8 { prev, new } | HelpCaller::Insert16 { prev, new } => {
            is_row(prev) && is_row(new)
        }
        HelpCaller::Delete6 { target, .. } => is_row(target),
    }
}

fn help_line_numbers(line: HelpLine) -> bool
    ensures { result ≡ help_line_numbers line }
{
    match line {
        HelpLine::TryMark3 { right } | HelpLine::HelpMarked2 { right } => is_row(right),
        HelpLine::HelpFlagged1
        | HelpLine::HelpFlagged2
        | HelpLine::TryMark2
        | HelpLine::TryMark6
        | HelpLine::HelpMarked1 => true,
    }
}

#[tactic(auto, unfolding(model::specs::WellFormed::line_numbers))]
fn line_numbers(line: Line) -> bool
    ensures { result ≡ line_numbers line }
{
    match line {
        Line::Idle(_) => true,
        Line::Search(line, f) => {
            search_line_numbers(line) && is_row(f.curr) && search_caller_numbers(f.caller)
        }
        Line::Insert(line, f) => insert_line_numbers(line) && is_row(f.prev),
        Line::Flag(_, f) => is_row(f.prev) && is_row(f.target),
        Line::Help(line, f) => {
            help_line_numbers(line)
                && is_row(f.prev)
                && is_row(f.del)
                && help_caller_numbers(f.caller)
        }
    }
}

fn pending_numbers(help: Pending) -> bool
    ensures { result ≡ pending_numbers 0 help }
{
    is_row(help.prev) && is_row(help.del)
}

// The slots that are not in use too.
fn helps_numbers(helps: [Pending; Catalogue::HELPS]) -> bool
    ensures { result ≡ all_from pending_numbers 0 helps }
{
    helps.iter().copied().all(pending_numbers)
}

// ---- No successor has mark and flag both set; rows 0 and 1 are linked ----

fn not_both(succ: Succ) -> bool
    ensures { result ≡ not_both succ }
{
    !(succ.mark && succ.flag)
}

fn ends_linked(i: u8, standing: Standing) -> bool
    ensures { result ≡ ends_linked i standing }
{
    2 <= i || standing == Standing::Linked
}

// ---- At most 8 pending helps, and only inside HelpFlagged ----

fn few_helps(worker: Worker) -> bool
    ensures { result ≡ few_helps worker }
{
    worker.count <= 8
}

fn helps_inside(worker: Worker) -> bool
    ensures { result ≡ helps_inside worker }
{
    worker.count == 0 || matches!(worker.line, Line::Help(..))
}

// ---- A row is held by a worker exactly when the worker's unfinished insert names it ----

const NO_ROW: u8 = 128;

fn held_in_search(caller: SearchCaller) -> u8
    ensures { result ≡ held_in_search caller }
{
    match caller {
        SearchCaller::Insert19 { new } => new,
        SearchCaller::Search1
        | SearchCaller::Insert1
        | SearchCaller::Delete1
        | SearchCaller::TryFlag11 { .. } => NO_ROW,
    }
}

fn held_in_insert(line: InsertLine) -> u8
    ensures { result ≡ held_in_insert line }
{
    match line {
        InsertLine::Insert4 { .. } => NO_ROW,
        InsertLine::Insert6 { new, .. }
        | InsertLine::Insert11 { new, .. }
        | InsertLine::Insert17 { new }
        | InsertLine::Insert18 { new } => new,
    }
}

fn held_in_help(caller: HelpCaller) -> u8
    ensures { result ≡ held_in_help caller }
{
    match caller {
        HelpCaller::Insert8 { new, .. } | HelpCaller::Insert16 { new, .. } => new,
        HelpCaller::Delete6 { .. } => NO_ROW,
    }
}

// The row that an unfinished insert past line 4 names, or 128.
#[tactic(auto, unfolding(model::specs::WellFormed::held_row))]
fn held_row(line: Line) -> u8
    ensures { result ≡ held_row line }
{
    match line {
        Line::Search(_, f) => held_in_search(f.caller),
        Line::Insert(line, _) => held_in_insert(line),
        Line::Help(_, f) => held_in_help(f.caller),
        Line::Idle(_) | Line::Flag(_, _) => NO_ROW,
    }
}

#[tactic(auto, unfolding(model::specs::WellFormed::holder_names))]
fn holder_names(workers: &[Worker; Catalogue::WORKERS], i: u8, standing: Standing) -> bool
    ensures { result ≡ holder_names workers.now i standing }
{
    match standing {
        Standing::Held(w) => workers
            .get(usize::from(w))
            .is_some_and(|holder| held_row(holder.line) == i),
        Standing::Free | Standing::Linked => true,
    }
}

#[tactic(auto, unfolding(model::specs::WellFormed::named_is_held))]
fn named_is_held(rows: &[Row; Catalogue::ROWS], w: u8, line: Line) -> bool
    ensures { result ≡ named_is_held rows.now w line }
{
    let named = held_row(line);
    named == NO_ROW || rows.row(named).standing == Standing::Held(w)
}

// ---- The state ----

#[tactic(auto, unfolding(model::specs::WellFormed::row_well))]
fn row_well(workers: &[Worker; Catalogue::WORKERS], i: u8, row: Row) -> bool
    ensures { result ≡ row_well workers.now i row }
{
    row_numbers(row)
        && not_both(row.succ)
        && ends_linked(i, row.standing)
        && holder_names(workers, i, row.standing)
}

#[tactic(auto, unfolding(model::specs::WellFormed::worker_well))]
fn worker_well(rows: &[Row; Catalogue::ROWS], w: u8, worker: Worker) -> bool
    ensures { result ≡ worker_well rows.now w worker }
{
    line_numbers(worker.line)
        && helps_numbers(worker.helps)
        && few_helps(worker)
        && helps_inside(worker)
        && named_is_held(rows, w, worker.line)
}

fn rows_well(rows: &[Row; Catalogue::ROWS], workers: &[Worker; Catalogue::WORKERS]) -> bool
    ensures { result ≡ all_from (row_well workers.now) 0 rows.now }
{
    (0..128)
        .zip(rows)
        .all(|(i, row)| row_well(workers, i, *row))
}

fn workers_well(rows: &[Row; Catalogue::ROWS], workers: &[Worker; Catalogue::WORKERS]) -> bool
    ensures { result ≡ all_from (worker_well rows.now) 0 workers.now }
{
    (0..8)
        .zip(workers)
        .all(|(w, worker)| worker_well(rows, w, *worker))
}

#[tactic(auto, unfolding(model::specs::WellFormed::well_formed))]
pub fn well_formed(state: Catalogue) -> bool
    ensures { result ≡ well_formed state }
{
    rows_well(&state.rows, &state.workers) && workers_well(&state.rows, &state.workers)
}
