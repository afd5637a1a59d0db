// One step of one worker, of a state that is known to be well formed: on any table of rows, and the worker's record.

ghost use Rattle.std.specs.Prelude.{◌≡◌, false, List, OnErr};
ghost use Rattle.model.specs.State.{worker_at};
ghost use Rattle.model.specs.Step.{effect_of, written, stacked, worker_after, ninth_help};
ghost use Rattle.model.specs.declared.Worker.{Worker};
ghost use Rattle.engine.specs.Steps.{StepsAs};

use accesses::{help_at, is_idle, ninth_help, with_help};
use lines::act;
use model::{Effect, Line, Pending, Refusal, Stack, Worker, Write, fresh_worker};
use tables::Table;

// What the worker's line does.
#[tactic(auto, unfolding(model::specs::Step::effect_of))]
pub fn effect_on<T: Table>(table: &T, me: u8, worker: Worker) -> Effect
    ensures { result ≡ effect_of (T.rows table.now) me worker }
{
    let last = help_at(worker.helps, worker.count.saturating_sub(1));
    act(table, me, worker.count, last, worker.line)
}

// The slot of a popped help becomes zero.
#[tactic(auto, unfolding(model::specs::Step::stacked, model::specs::Step::ninth_help))]
fn stacked(worker: Worker, line: Line, stack: Stack) -> Worker
    requires { ninth_help worker.count stack ≡ false }
    ensures { result ≡ stacked worker line stack }
{
    let Worker { helps, count, .. } = worker;
    match stack {
        Stack::Keep => Worker { line, ..worker },
        Stack::Push(help) => Worker {
            line,
            helps: with_help(helps, count, help),
            count: count + 1,
        },
        Stack::Pop => {
            let less = count.saturating_sub(1);
            Worker {
                line,
                helps: with_help(helps, less, Pending::default()),
                count: less,
            }
        }
    }
}

// On finishing, all other registers of the worker become zero.
#[tactic(auto, unfolding(model::specs::Step::worker_after))]
pub fn worker_after(worker: Worker, effect: Effect) -> Worker
    requires { ninth_help worker.count effect.stack ≡ false }
    ensures { result ≡ worker_after worker effect }
{
    if is_idle(effect.line) {
        return fresh_worker(effect.line);
    }
    stacked(worker, effect.line, effect.stack)
}

// The rows that a line writes.
#[tactic(auto, unfolding(model::specs::Step::written))]
fn store<T: Table>(table: &mut T, write: Write)
    ensures rows { T.rows table.new ≡ written (T.rows table.old) write }
    ensures sound { T.IsSound table.old → T.IsSound table.new }
{
    match write {
        Write::NoRow => {}
        Write::OneRow(i, row) => table.store(i, row),
        Write::TwoRows(i, row, j, other) => {
            table.store(i, row);
            table.store(j, other);
        }
    }
}

// A step of worker `me`. Whoever the other workers are, it is the model's. Refused, it changes nothing.
pub fn step_worker<T: Table>(table: &mut T, worker: &mut Worker, me: u8) -> Result<(), Refusal>
    ensures step { (workers : List Worker) → worker_at workers me ≡ worker.old → StepsAs (T.rows table.old) workers me result worker.new (T.rows table.new) }
    ensures sound { T.IsSound table.old → T.IsSound table.new }
    ensures refused { OnErr result ((table.new ≡ table.old) × (worker.new ≡ worker.old)) }
{
    if is_idle(worker.line) {
        return Err(Refusal::WorkerIdle);
    }
    let effect = effect_on(table, me, *worker);
    if ninth_help(worker.count, effect.stack) {
        return Err(Refusal::NinthHelp);
    }
    *worker = worker_after(*worker, effect);
    store(table, effect.write);
    Ok(())
}
