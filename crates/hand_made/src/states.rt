// The states and records that are shown: from the empty catalogue by calls, or by hand.

use model::{
    Catalogue, HelpCaller, HelpFrame, HelpLine, InsertFrame, InsertLine, Line, Row, Standing, Succ,
    Worker, free_row, fresh_worker,
};
use tables::Table;

// The request codes.
pub const SEARCH: u32 = 1;

pub const INSERT: u32 = 2;

pub const DELETE: u32 = 3;

// No turn takes more steps.
pub const LARGEST_BUDGET: u32 = 8192;

pub fn record_of(state: &Catalogue, worker: u32) -> Worker {
    let own = state.workers.get(worker as usize);
    *own.unwrap_or(&state.workers[0])
}

pub fn with_worker(state: Catalogue, worker: u32, record: Worker) -> Catalogue {
    let mut with = state;
    if let Some(own) = with.workers.get_mut(worker as usize) {
        *own = record;
    }
    with
}

pub fn with_row(state: Catalogue, i: u8, row: Row) -> Catalogue {
    let mut with = state;
    with.rows.store(i, row);
    with
}

pub fn asked(state: Catalogue, worker: u32, code: u32, key: u32, element: u32) -> Catalogue {
    engine::submit(state, worker, code, key, element).state
}

// After a turn of the worker's own record.
pub fn after(state: Catalogue, worker: u32, budget: u32) -> Catalogue {
    lent::turn_of(state, worker, budget, record_of(&state, worker)).state
}

// Worker 7 inserts, to its finish.
pub fn added(state: Catalogue, key: u32, element: u32) -> Catalogue {
    after(asked(state, 7, INSERT, key, element), 7, LARGEST_BUDGET)
}

// A linked row, with neither mark nor flag.
pub fn linked(key: u32, right: u8) -> Row {
    Row {
        key,
        succ: Succ {
            right,
            mark: false,
            flag: false,
        },
        standing: Standing::Linked,
        ..free_row()
    }
}

// A record at a line, with `count` pending helps (0, 0).
pub fn at_line(line: Line, count: u8) -> Worker {
    Worker {
        count,
        ..fresh_worker(line)
    }
}

// A record of an insert of 5 with element 50.
pub fn inserting(line: InsertLine, prev: u8) -> Worker {
    let frame = InsertFrame {
        key: 5,
        element: 50,
        prev,
    };
    fresh_worker(Line::Insert(line, frame))
}

// A delete of row 2, which helps at this line.
pub fn helping(line: HelpLine) -> Line {
    let frame = HelpFrame {
        key: 10,
        element: 0,
        prev: 0,
        del: 2,
        caller: HelpCaller::Delete6 {
            target: 2,
            result: true,
        },
    };
    Line::Help(line, frame)
}

// Row 2 follows the head and is flagged for row 3.
pub fn flagged() -> Catalogue {
    let mut state = Catalogue::empty();
    state.rows[0] = linked(0, 2);
    state.rows[2] = linked(10, 3);
    state.rows[2].succ.flag = true;
    state.rows[3] = linked(20, 1);
    state
}
