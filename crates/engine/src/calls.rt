// Submit and step: the refusals in document 01's order, and what an accepted call does. A worker's number is cast where it is known to be
// below 8: `try_from` would have an error that cannot come.

ghost use Rattle.std.specs.Prelude.{◌≡◌, ◌<◌};
ghost use Rattle.model.specs.Step.{step_worker, step, submit};
ghost use Rattle.model.specs.Run.{call};

use crate::steps;
use accesses::{Request, first_line, is_idle};
use model::{Call, Catalogue, Refusal, Stepped, fresh_worker};
use well_formed::well_formed;

// A step of a worker of a state that is known to be well formed.
pub fn step_worker(state: &mut Catalogue, worker: u8) -> Result<(), Refusal>
    requires { worker < 8 }
    ensures { record { verdict = result; state = state.new } ≡ step_worker state.old worker }
{
    let record = &mut state.workers[usize::from(worker)];
    steps::step_worker(&mut state.rows, record, worker)
}

// Step in place, refusals 1, 4, 3, 5.
#[tactic(auto, unfolding(model::specs::Step::step))]
fn take_step(state: &mut Catalogue, worker: u32) -> Result<(), Refusal>
    ensures { record { verdict = result; state = state.new } ≡ step state.old worker }
{
    if 7 < worker {
        return Err(Refusal::NoSuchWorker);
    }
    if !well_formed(*state) {
        return Err(Refusal::NotWellFormed);
    }
    step_worker(state, worker as u8)
}

// Submit in place, refusals 1, 4, 6, 2.
#[tactic(auto, unfolding(model::specs::Step::submit))]
fn begin(
    state: &mut Catalogue,
    worker: u32,
    code: u32,
    key: u32,
    element: u32,
) -> Result<(), Refusal>
    ensures { record { verdict = result; state = state.new } ≡ submit state.old worker code key element }
{
    if 7 < worker {
        return Err(Refusal::NoSuchWorker);
    }
    if !well_formed(*state) {
        return Err(Refusal::NotWellFormed);
    }
    Request::try_from(code)?;
    if !is_idle(state.workers[worker as usize].line) {
        return Err(Refusal::WorkerBusy);
    }
    state.workers[worker as usize] = fresh_worker(first_line(code, key, element));
    Ok(())
}

pub fn step(mut state: Catalogue, worker: u32) -> Stepped
    ensures { result ≡ step state worker }
{
    let verdict = take_step(&mut state, worker);
    Stepped { verdict, state }
}

pub fn submit(mut state: Catalogue, worker: u32, code: u32, key: u32, element: u32) -> Stepped
    ensures { result ≡ submit state worker code key element }
{
    let verdict = begin(&mut state, worker, code, key, element);
    Stepped { verdict, state }
}

#[tactic(auto, unfolding(model::specs::Run::call))]
pub fn call(state: Catalogue, made: Call) -> Stepped
    ensures { result ≡ call state made }
{
    match made {
        Call::Submit {
            worker,
            code,
            key,
            element,
        } => submit(state, worker, code, key, element),
        Call::Step { worker } => step(state, worker),
    }
}
