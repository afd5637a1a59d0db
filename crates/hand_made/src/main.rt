// What no schedule file shows, run and held to the stored output: turns on a lent worker record, over P7 and P8 of document 01 and on a
// record that is not the state's own; calls that are refused, on states made by hand; inserts on rows made by hand; counts over lent
// rows. The stored output was worked out from document 01.

#![tactic(auto)]

mod counts;
mod inserts;
mod refused;
mod show;
mod states;
mod turns;

use model::Catalogue;
use states::{DELETE, INSERT, LARGEST_BUDGET, added, after, asked};
use std::io;
use turns::Turn;

// The workers of document 01.
const A: u32 = 0;

const B: u32 = 1;

// P7. A deletes 10 for 6 steps; B inserts 20; A goes on. The state at the end.
fn show_p7(rt: &impl Print, two_keys: Catalogue) -> io::Result<Catalogue> {
    let deleting = asked(two_keys, A, DELETE, 10, 0);
    Turn::own(deleting, A).show_each(rt, "P7, A deletes 10")?;
    Turn::own(deleting, A).show(rt, "P7, A deletes 10", 6)?;
    let inserting = asked(after(deleting, A, 6), B, INSERT, 20, 200);
    Turn::own(inserting, B).show_each(rt, "P7, B inserts 20")?;
    let inserted = after(inserting, B, LARGEST_BUDGET);
    Turn::own(inserted, A).show_each(rt, "P7, A goes on")?;
    Ok(after(inserted, A, LARGEST_BUDGET))
}

// P8. B inserts 20 for 5 steps; A deletes 10 for 7; B goes on; A goes on. The state at the end.
fn show_p8(rt: &impl Print, two_keys: Catalogue) -> io::Result<Catalogue> {
    let inserting = asked(two_keys, B, INSERT, 20, 200);
    Turn::own(inserting, B).show_each(rt, "P8, B inserts 20")?;
    Turn::own(inserting, B).show(rt, "P8, B inserts 20", 5)?;
    let deleting = asked(after(inserting, B, 5), A, DELETE, 10, 0);
    Turn::own(deleting, A).show_each(rt, "P8, A deletes 10")?;
    let half_deleted = after(deleting, A, 7);
    Turn::own(half_deleted, B).show_each(rt, "P8, B goes on")?;
    let inserted = after(half_deleted, B, LARGEST_BUDGET);
    Turn::own(inserted, A).show_each(rt, "P8, A goes on")?;
    Ok(after(inserted, A, LARGEST_BUDGET))
}

// Worker 7 adds the keys that are held at the start.
fn main(rt: HostRuntime) -> io::Result<()> {
    let two_keys = added(added(Catalogue::empty(), 10, 100), 30, 300);
    let p7 = show_p7(&rt, two_keys)?;
    let p8 = show_p8(&rt, two_keys)?;
    turns::show_other_records(&rt)?;
    turns::show_ninth_help(&rt)?;
    refused::show(&rt)?;
    inserts::show(&rt)?;
    counts::show(&rt, p7, p8)
}
