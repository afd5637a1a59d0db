// Inserts on rows made by hand: line 4 takes a free row that is not zero, and lines 10 and 11 where prev is the held row itself.

use crate::show::Shown;
use crate::states::{INSERT, after, asked, inserting, linked, with_row, with_worker};
use model::{Catalogue, InsertLine, Row, Standing, Succ};
use std::io;

// Worker 0, and row 2.
fn show_row(rt: &impl Print, name: &str, state: &Catalogue) -> io::Result<()> {
    let line = Shown(state.workers[0].line);
    let Row {
        key,
        element,
        backlink,
        succ: Succ { right, .. },
        ..
    } = state.rows[2];
    println!(rt; "{name}, {line}, key {key}, element {element}, backlink {backlink}, right {right}")
}

pub fn show(rt: &impl Print) -> io::Result<()> {
    let begun = asked(Catalogue::empty(), 0, INSERT, 5, 50);
    let mut free = linked(9, 4);
    free.backlink = 3;
    free.succ.flag = true;
    free.standing = Standing::Free;
    let not_zero = with_row(begun, 2, free);
    show_row(rt, "a free row that is not zero", &not_zero)?;
    show_row(rt, "taken at line 4", &after(not_zero, 0, 2))?;
    let held = Row {
        standing: Standing::Held(0),
        ..linked(5, 0)
    };
    let state = with_row(Catalogue::empty(), 2, held);
    let linking = inserting(InsertLine::Insert11 { next: 1, new: 2 }, 2);
    let own = with_worker(state, 0, linking);
    show_row(rt, "prev is the held row", &own)?;
    show_row(rt, "linked at line 11", &after(own, 0, 1))
}
