// Submit and step on packed rows, for every words, workers and numbers. A submit writes no row, so its words are lent to be read only. They
// are no calls of `engine` on another table: what they refuse first is words that pack no rows, as the model's `packed_call` does.

ghost use Rattle.std.specs.Prelude.{◌≡◌};
ghost use Rattle.model.specs.Packed.{packed_call};
ghost use Rattle.model.specs.declared.Call.TheVariants.{Submit, Step};

use crate::whole::{packed_well, packing_of, state_of};
use model::{Call, Called, Catalogue, Refusal, Worker};

// Step in place, refusals 1, 4, 3, 5.
#[tactic(auto, unfolding(model::specs::Packed::packed_call))]
fn take_step(
    words: &mut [u32],
    workers: &mut [Worker; Catalogue::WORKERS],
    worker: u32,
) -> Result<(), Refusal>
    ensures { (record { verdict = result; workers = workers.new } ≡ (packed_call words.old workers.old (Step worker)).called) × (words.new ≡ (packed_call words.old workers.old (Step worker)).words) }
{
    if 7 < worker {
        return Err(Refusal::NoSuchWorker);
    }
    let table = words.as_mut_array::<512>().ok_or(Refusal::NotWellFormed)?;
    if !packed_well(table, *workers) {
        return Err(Refusal::NotWellFormed);
    }
    engine::step_worker(table, &mut workers[worker as usize], worker as u8)
}

// Submit in place, refusals 1, 4, 6, 2.
#[tactic(auto, unfolding(model::specs::Packed::packed_call))]
fn begin(
    words: &[u32],
    workers: &mut [Worker; Catalogue::WORKERS],
    worker: u32,
    code: u32,
    key: u32,
    element: u32,
) -> Result<(), Refusal>
    ensures { record { verdict = result; workers = workers.new } ≡ (packed_call words.now workers.old (Submit worker code key element)).called }
{
    if 7 < worker {
        return Err(Refusal::NoSuchWorker);
    }
    let table = packing_of(words).ok_or(Refusal::NotWellFormed)?;
    let stepped = engine::submit(state_of(table, *workers), worker, code, key, element);
    let after = stepped.state.workers;
    *workers = after;
    stepped.verdict
}

// Refused, it leaves every word.
pub fn step(words: &mut [u32], workers: [Worker; Catalogue::WORKERS], worker: u32) -> Called
    ensures { (result ≡ (packed_call words.old workers (Step worker)).called) × (words.new ≡ (packed_call words.old workers (Step worker)).words) }
{
    let mut workers = workers;
    let verdict = take_step(words, &mut workers, worker);
    Called { verdict, workers }
}

pub fn submit(
    words: &[u32],
    workers: [Worker; Catalogue::WORKERS],
    worker: u32,
    code: u32,
    key: u32,
    element: u32,
) -> Called
    ensures { result ≡ (packed_call words.now workers (Submit worker code key element)).called }
{
    let mut workers = workers;
    let verdict = begin(words, &mut workers, worker, code, key, element);
    Called { verdict, workers }
}

// Any call. A submit leaves every word.
pub fn call(words: &mut [u32], workers: [Worker; Catalogue::WORKERS], made: Call) -> Called
    ensures { (result ≡ (packed_call words.old workers made).called) × (words.new ≡ (packed_call words.old workers made).words) }
{
    match made {
        Call::Submit {
            worker,
            code,
            key,
            element,
        } => submit(words, workers, worker, code, key, element),
        Call::Step { worker } => step(words, workers, worker),
    }
}
