// A turn: up to a budget of steps of one worker, which stops at its finish. The state is checked once; the steps are then taken
// without the check.

ghost use Rattle.std.specs.Prelude.{◌<◌, ◌≡◌};
ghost use Rattle.model.specs.State.{worker_at};
ghost use Rattle.model.specs.Turn.{turn_ends, turn_from, refuse_turn, turn};

use crate::calls::step_worker;
use accesses::is_idle;
use model::{Catalogue, Refusal, Turned, Verdict, Worker};
use well_formed::well_formed;

// The worker's record.
fn record_of(state: &Catalogue, worker: u8) -> Worker
    requires { worker < 8 }
    ensures { result ≡ worker_at state.now.workers worker }
{
    state.workers[usize::from(worker)]
}

// The end of a turn of this worker: its record of the end state is what the lent one has become.
fn turn_ends(worker: u8, verdict: Verdict, steps: u32, state: Catalogue) -> Turned
    requires { worker < 8 }
    ensures { result ≡ turn_ends worker verdict steps state }
{
    Turned {
        verdict,
        steps,
        state,
        lent: record_of(&state, worker),
    }
}

// The steps of a turn, from a state that is known to be well formed.
fn turn_from(mut state: Catalogue, worker: u8, budget: u32) -> Turned
    requires { worker < 8 }
    ensures { result ≡ turn_from worker budget 0 state }
{
    for steps in 0..budget {
        if is_idle(record_of(&state, worker).line) {
            return turn_ends(worker, Ok(()), steps, state);
        }
        if let Err(refusal) = step_worker(&mut state, worker) {
            return turn_ends(worker, Err(refusal), steps, state);
        }
    }
    turn_ends(worker, Ok(()), budget, state)
}

fn refuse_turn(refusal: Refusal, state: Catalogue, lent: Worker) -> Turned
    ensures { result ≡ refuse_turn refusal state lent }
{
    Turned {
        verdict: Err(refusal),
        steps: 0,
        state,
        lent,
    }
}

// Turn, refusals 1, 11, 4, 3. The lent record stands for the worker's in the checks and in the state returned.
#[tactic(auto, unfolding(model::specs::Turn::turn, model::specs::Turn::turn_of))]
pub fn turn(mut state: Catalogue, worker: u32, budget: u32, lent: Worker) -> Turned
    ensures { result ≡ turn state worker budget lent }
{
    if 7 < worker {
        return refuse_turn(Refusal::NoSuchWorker, state, lent);
    }
    state.workers[worker as usize] = lent;
    if 8192 < budget {
        return refuse_turn(Refusal::BudgetTooLarge, state, lent);
    }
    if !well_formed(state) {
        return refuse_turn(Refusal::NotWellFormed, state, lent);
    }
    if is_idle(lent.line) {
        return refuse_turn(Refusal::WorkerIdle, state, lent);
    }
    turn_from(state, worker as u8, budget)
}
