// The packed table beside the catalogue by value. Every call is made on both, and then the words are compared with the packing of the
// rows: over the schedules that are its arguments, random calls, tables with one word changed, and other numbers of words than 512. The
// stored output was worked out by another machine, tools/both_tables.py, which has one table alone and none of these crates' code.

#![tactic(auto)]

mod both;
mod changed;
mod lengths;
mod published;
mod random;
mod show;

use std::env::{Env, FillError};
use std::fs::Files;
use std::io;

// The schedules that the arguments name. A name that is no text of at most 100 bytes stands as an empty one, which no file has; `env::args`
// would give a long one whole.
fn show_published(rt: &(impl Env + Files + Print)) -> io::Result<()> {
    let mut name = [0u8; 100];
    for i in 1..usize::MAX {
        let n = match rt.arg(i, &mut name) {
            Ok(n) => n,
            Err(FillError::TooLong) => 0,
            Err(FillError::NotPresent) => break,
        };
        published::show(rt, str::from_utf8(&name[..n]).unwrap_or(""))?;
    }
    Ok(())
}

fn main(rt: HostRuntime) -> io::Result<()> {
    show_published(&rt)?;
    for (seed, keys) in [(1, 12), (2, 40), (3, 4), (4, 1000)] {
        random::show(&rt, seed, keys)?;
    }
    for seed in [5, 6] {
        changed::show(&rt, seed)?;
    }
    lengths::show(&rt)
}
