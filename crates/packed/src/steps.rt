// A step of one worker on packed rows in lent words: that of `engine` on the words as a table.

ghost use Rattle.std.specs.Prelude.{◌≡◌, List};
ghost use Rattle.model.specs.State.{worker_at};
ghost use Rattle.model.specs.declared.Worker.{Worker};
ghost use Rattle.packing.specs.Tables.{PacksRows};
ghost use Rattle.packed.specs.Steps.{StepsAs};

use model::{Verdict, Worker};

// After a step: the worker's record.
#[derive(Clone, Copy, Debug, PartialEq, Eq)]
pub struct Moved {
    pub verdict: Verdict,
    pub worker: Worker,
}

// A step of worker `me`, whose record is k, of a state that is known to be well formed. Whoever the other workers are, it is the
// model's step.
pub fn step_worker(words: &mut [u32], k: Worker, me: u8) -> Moved
    requires { PacksRows words.old }
    ensures { (workers : List Worker) → worker_at workers me ≡ k → StepsAs words.old workers me result words.new }
{
    let table = words.as_mut_array::<512>().unwrap();
    let mut worker = k;
    let verdict = engine::step_worker(table, &mut worker, me);
    Moved { verdict, worker }
}
