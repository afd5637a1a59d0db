// The two functions that take a reference: `count` over lent row records, and `turn` on a lent worker record, over `engine::turn`, which
// takes the record by value. Beside each stands one that lends a value of its own, for whoever has no reference.

#![tactic(auto)]

ghost use Rattle.std.specs.Prelude.{◌<◌, ◌≡◌, length};
ghost use Rattle.model.specs.Count.{is_save, countable, count};
ghost use Rattle.model.specs.Turn.{turn};
ghost use Rattle.lent.specs.Result.{result_of};

use model::{Catalogue, Refusal, Row, Standing, Turned, Verdict, Worker};

// ---- The count ----

const HEAD: usize = 0;

const TAIL: usize = 1;

// A walk makes at most this many moves.
const MOVES: u32 = 128;

// There are 128 rows, and no row number among them is above 127.
#[tactic(auto, unfolding(model::specs::Count::countable))]
fn countable(rows: &[Row]) -> bool
    ensures { result ≡ countable rows.now }
{
    rows.len() == Catalogue::ROWS
        && rows
            .iter()
            .all(|row| row.succ.right < 128 && row.backlink < 128)
}

// Row `at` is above the tail, and linked.
#[tactic(auto, unfolding(model::specs::Count::is_save))]
fn is_save(rows: &[Row], at: usize) -> bool
    requires { at < length rows.now }
    ensures { result ≡ is_save rows.now at }
{
    at > TAIL && rows[at].standing == Standing::Linked
}

// The rows are lent, any number of them. Refusal 4 unless they are 128 and no row number among them is above 127. Else a walk goes right
// from the head, with `_left` moves to go after each, and stops where it comes to the tail.
#[tactic(auto, using(crate::proofs::Walk::walking), unfolding(model::specs::Count::count, model::specs::Count::saves))]
pub fn count(rows: &[Row]) -> Result<u32, Refusal>
    ensures { result ≡ count rows.now }
{
    if !countable(rows) {
        return Err(Refusal::NotWellFormed);
    }
    let mut saves = 0;
    let mut at = HEAD;
    for _left in (0..MOVES).rev() {
        at = usize::from(rows[at].succ.right);
        if at == TAIL {
            break;
        }
        if is_save(rows, at) {
            saves += 1;
        }
    }
    Ok(saves)
}

// The count of a catalogue's rows, for whoever has no reference to them.
pub fn count_of(state: Catalogue) -> Result<u32, Refusal>
    ensures { result ≡ count state.rows }
{
    count(&state.rows)
}

// ---- The turn ----

// What a turn returns: `Turned` without the lent record, which is found where it was lent.
#[derive(Clone, Copy, Debug, PartialEq, Eq)]
pub struct TurnResult {
    pub verdict: Verdict,
    pub steps: u32,
    pub state: Catalogue,
}

// The worker's record is lent, and is found as the turn left it: as it was lent after refusals 1, 11, 4 and 3, and as the steps before
// left it after 5.
pub fn turn(state: Catalogue, worker: u32, budget: u32, lent: &mut Worker) -> TurnResult
    ensures { (result ≡ result_of (turn state worker budget lent.old)) × (lent.new ≡ (turn state worker budget lent.old).lent) }
{
    let turned = engine::turn(state, worker, budget, *lent);
    *lent = turned.lent;
    TurnResult {
        verdict: turned.verdict,
        steps: turned.steps,
        state: turned.state,
    }
}

// A turn for whoever has no reference to a record: it lends one of its own.
pub fn turn_of(state: Catalogue, worker: u32, budget: u32, mut lent: Worker) -> Turned
    ensures { result ≡ turn state worker budget lent }
{
    let TurnResult {
        verdict,
        steps,
        state,
    } = turn(state, worker, budget, &mut lent);
    Turned {
        verdict,
        steps,
        state,
        lent,
    }
}
