// The catalogue's calls by value, for every caller: submit, step, any call, and a turn. The contract of each says that its result is the
// model's definition of it, for every state and every number. `step_worker` is the step itself, on any table of rows and one worker's
// record: the crate `packed` takes the same one. Its two parts are public beside it: `effect_on`, what the worker's line does to any
// table, and `worker_after`, the record after that.

#![tactic(auto)]

mod calls;
mod steps;
mod turns;

pub use calls::{call, step, submit};
pub use steps::{effect_on, step_worker, worker_after};
pub use turns::turn;
