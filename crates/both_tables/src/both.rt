// Both tables, and a call on both.

use model::{Call, Called, Catalogue, Stepped, Worker};

// The catalogue by value; the same packed; and how many calls were made, were refused, and left the two different.
#[derive(Clone, Copy)]
pub struct Tables {
    pub state: Catalogue,
    pub words: [u32; 512],
    pub workers: [Worker; Catalogue::WORKERS],
    pub calls: u32,
    pub refused: u32,
    pub different: u32,
}

// One more, where it holds.
pub fn tally(count: &mut u32, holds: bool) {
    *count = count.wrapping_add(u32::from(holds));
}

// The rows of a state as words. 512 of them are never refused.
pub fn words_of(state: Catalogue) -> [u32; 512] {
    let mut words = [0; 512];
    packed::pack(state, &mut words).ok();
    words
}

// What a call left on the two tables: the same verdict, the same workers, and the packing of the rows.
pub fn agree(made: &Stepped, called: &Called, words: &[u32; 512]) -> bool {
    made.verdict == called.verdict
        && made.state.workers == called.workers
        && words_of(made.state) == *words
}

impl Tables {
    pub fn start() -> Self {
        let state = Catalogue::empty();
        let words = words_of(state);
        let workers = state.workers;
        Tables {
            state,
            words,
            workers,
            calls: 0,
            refused: 0,
            different: 0,
        }
    }

    pub fn call(&mut self, call: Call) {
        let made = engine::call(self.state, call);
        let called = packed::call(&mut self.words, self.workers, call);
        tally(&mut self.calls, true);
        tally(&mut self.refused, called.verdict.is_err());
        tally(&mut self.different, !agree(&made, &called, &self.words));
        self.state = made.state;
        self.workers = called.workers;
    }
}
