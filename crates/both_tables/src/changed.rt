// Packed tables in which one word was changed. A call on them is the call on the state for which they stand; where they stand for none, it
// is refused with 4, or with 1, and leaves every word.

use crate::both::{Tables, agree, tally};
use crate::random::{behind_call, below, next, random_call};
use model::{Call, Catalogue, Refusal, Worker};
use std::io;

// How many tables packed no rows, by the refusal of the call; how many packed rows, by whether the state was well formed; and on how many
// the two tables, or the words before and after, were different.
#[derive(Clone, Copy, Default)]
struct Found {
    nothing_1: u32,
    nothing_4: u32,
    ill: u32,
    well: u32,
    different: u32,
}

// Half of the new values are small, as those of successors and of the words behind them are.
fn change(words: &mut [u32; 512], x: u32) {
    let at = (x / 65536 % 512) as usize;
    let y = next(x);
    let value = next(y);
    words[at] = if below(y, 2) == 0 {
        below(value, 2700)
    } else {
        value
    };
}

impl Found {
    fn compare(&mut self, words: &[u32; 512], workers: [Worker; Catalogue::WORKERS], call: Call) {
        let mut after = *words;
        let called = packed::call(&mut after, workers, call);
        let unpacked = packed::unpack(words, workers);
        if unpacked.verdict.is_ok() {
            let made = engine::call(unpacked.state, call);
            let ill = made.verdict == Err(Refusal::NotWellFormed);
            tally(&mut self.ill, ill);
            tally(&mut self.well, !ill);
            tally(&mut self.different, !agree(&made, &called, &after));
        } else {
            let no_worker = Err(Refusal::NoSuchWorker);
            let no_rows = Err(Refusal::NotWellFormed);
            tally(&mut self.nothing_1, called.verdict == no_worker);
            tally(&mut self.nothing_4, called.verdict == no_rows);
            tally(&mut self.different, after != *words);
        }
    }
}

// 4,000 random calls, after each of which a call is made on a changed copy of the packed table.
fn looked_for(seed: u32) -> Found {
    let mut found = Found::default();
    let mut tables = Tables::start();
    let mut x = seed;
    for _ in 0..4000 {
        tables.call(random_call(x, 12));
        x = behind_call(x);
        let mut words = tables.words;
        change(&mut words, x);
        found.compare(&words, tables.workers, random_call(next(x), 12));
        x = behind_call(x);
    }
    found
}

pub fn show(rt: &impl Print, seed: u32) -> io::Result<()> {
    let Found {
        nothing_1,
        nothing_4,
        ill,
        well,
        different,
    } = looked_for(seed);
    print!(rt;
        "changed words, seed {seed}: no rows, refused with 1: {nothing_1}, with 4: {nothing_4}; "
    )?;
    println!(rt; "not well formed {ill}; well formed {well}; different {different}")
}
