// The records of the catalogue: rows, workers, answers and refusals, in the sizes and forms of document 01, and the empty
// catalogue. What submit, step, turn and count do with them is said once, in specs/.

#![tactic(auto)]

ghost use Rattle.std.specs.Prelude.{◌≡◌};
ghost use Rattle.model.specs.State.{empty_catalogue, free_row, end_row, fresh_worker, idle_worker};
ghost use Rattle.model.specs.Numbers.{answer_number, answer_element, refusal_number};

// ---- Rows ----

// A row's successor: C&S compares and writes its three parts together.
#[derive(Clone, Copy, Debug, PartialEq, Eq)]
pub struct Succ {
    pub right: u8,
    pub mark: bool,
    pub flag: bool,
}

// Who may touch a row: nobody yet, the worker whose unfinished insert took it, or everybody.
#[derive(Clone, Copy, Debug, PartialEq, Eq)]
pub enum Standing {
    Free,
    Held(u8),
    Linked,
}

#[derive(Clone, Copy, Debug, PartialEq, Eq)]
pub struct Row {
    pub key: u32,
    pub element: u32,
    pub backlink: u8,
    pub succ: Succ,
    pub standing: Standing,
}

// ---- Answers and refusals ----

// What a finished request was answered. `NoAnswer` is the answer 0 of a worker that has never finished one, a number like the others.
#[derive(Clone, Copy, Debug, PartialEq, Eq)]
pub enum Answer {
    NoAnswer,
    Found(u32),
    Absent,
    Added,
    Duplicate,
    Removed(u32),
    Full,
}

// Written out: an answer with an element has no discriminant to read, as a refusal has.
impl Answer {
    #[tactic(auto, unfolding(crate::specs::Numbers::answer_number))]
    pub fn number(self) -> u32
        ensures { result ≡ answer_number self }
    {
        match self {
            Answer::NoAnswer => 0,
            Answer::Found(_) => 1,
            Answer::Absent => 2,
            Answer::Added => 3,
            Answer::Duplicate => 4,
            Answer::Removed(_) => 5,
            Answer::Full => 6,
        }
    }

    // 0 where there is none.
    #[tactic(auto, unfolding(crate::specs::Numbers::answer_element))]
    pub fn element(self) -> u32
        ensures { result ≡ answer_element self }
    {
        match self {
            Answer::Found(element) | Answer::Removed(element) => element,
            _ => 0,
        }
    }
}

// Document 01's table of refusals, with its numbers, and no other.
#[derive(Clone, Copy, Debug, PartialEq, Eq)]
pub enum Refusal {
    NoSuchWorker = 1,
    WorkerBusy = 2,
    WorkerIdle = 3,
    NotWellFormed = 4,
    NinthHelp = 5,
    NoSuchRequest = 6,
    FileVersion = 7,
    FileLength = 8,
    FileRecord = 9,
    FileTooLong = 10,
    BudgetTooLarge = 11,
}

impl From<Refusal> for u32 {
    ghost from_gives = { λ refusal number. number ≡ refusal_number refusal };

    #[tactic(auto, unfolding(crate::specs::Numbers::refusal_number))]
    fn from(refusal: Refusal) -> u32 {
        refusal as u32
    }
}

// What a call answers.
pub type Verdict = Result<(), Refusal>;

// ---- Lines: where a busy worker stands, with what that line needs ----
//
// The routines are those of figures 3 to 5, the numbers those of their lines. A line that document 01 cuts into several
// accesses has one case for each.

// Who called SearchFrom, with what the caller keeps meanwhile.
#[derive(Clone, Copy, Debug, PartialEq, Eq)]
pub enum SearchCaller {
    Search1,
    Insert1,
    Insert19 { new: u8 },
    Delete1,
    TryFlag11 { target: u8 },
}

// SearchFrom, and the HelpMarked of its line 5.
#[derive(Clone, Copy, Debug, PartialEq, Eq)]
pub enum SearchLine {
    SearchFrom1,
    SearchFrom3NextMark { next: u8 },
    SearchFrom3CurrMark { next: u8 },
    SearchFrom3CurrRight { next: u8 },
    SearchFrom4 { next: u8 },
    SearchFrom5HelpMarked1 { next: u8 },
    SearchFrom5HelpMarked2 { next: u8, right: u8 },
    SearchFrom6,
    SearchFrom9,
}

// The element is an insert's. A submit of any other request stores 0 there, and nothing reads it.
#[derive(Clone, Copy, Debug, PartialEq, Eq)]
pub struct SearchFrame {
    pub key: u32,
    pub element: u32,
    pub curr: u8,
    pub caller: SearchCaller,
}

// Insert's own accesses. Lines 10 and 11 are one step.
#[derive(Clone, Copy, Debug, PartialEq, Eq)]
pub enum InsertLine {
    Insert4 { next: u8 },
    Insert6 { next: u8, new: u8 },
    Insert11 { next: u8, new: u8 },
    Insert17 { new: u8 },
    Insert18 { new: u8 },
}

#[derive(Clone, Copy, Debug, PartialEq, Eq)]
pub struct InsertFrame {
    pub key: u32,
    pub element: u32,
    pub prev: u8,
}

// TryFlag, which Delete calls.
#[derive(Clone, Copy, Debug, PartialEq, Eq)]
pub enum FlagLine {
    TryFlag2,
    TryFlag4,
    TryFlag9,
    TryFlag10,
}

#[derive(Clone, Copy, Debug, PartialEq, Eq)]
pub struct FlagFrame {
    pub key: u32,
    pub prev: u8,
    pub target: u8,
}

// Who called the outermost HelpFlagged, with what the caller keeps meanwhile.
#[derive(Clone, Copy, Debug, PartialEq, Eq)]
pub enum HelpCaller {
    Insert8 { prev: u8, new: u8 },
    Insert16 { prev: u8, new: u8 },
    Delete6 { target: u8, result: bool },
}

// HelpFlagged, and the TryMark and HelpMarked that it calls.
#[derive(Clone, Copy, Debug, PartialEq, Eq)]
pub enum HelpLine {
    HelpFlagged1,
    HelpFlagged2,
    TryMark2,
    TryMark3 { right: u8 },
    TryMark6,
    HelpMarked1,
    HelpMarked2 { right: u8 },
}

#[derive(Clone, Copy, Debug, PartialEq, Eq)]
pub struct HelpFrame {
    pub key: u32,
    pub element: u32,
    pub prev: u8,
    pub del: u8,
    pub caller: HelpCaller,
}

#[derive(Clone, Copy, Debug, PartialEq, Eq)]
pub enum Line {
    Idle(Answer),
    Search(SearchLine, SearchFrame),
    Insert(InsertLine, InsertFrame),
    Flag(FlagLine, FlagFrame),
    Help(HelpLine, HelpFrame),
}

// ---- Workers and the catalogue ----

// A HelpFlagged(prev, del) that waits in TryMark for another to end.
#[derive(Clone, Copy, Debug, Default, PartialEq, Eq)]
pub struct Pending {
    pub prev: u8,
    pub del: u8,
}

// The first `count` of `helps` are the pending helps, the last of them the first to run again. No list with a length of its own: a record
// made by hand may have nine, or anything in the slots behind, and is then refused (`broken_refused`, `hand_made`).
#[derive(Clone, Copy, Debug, PartialEq, Eq)]
pub struct Worker {
    pub line: Line,
    pub helps: [Pending; Catalogue::HELPS],
    pub count: u8,
}

#[derive(Clone, Copy, Debug, PartialEq, Eq)]
pub struct Catalogue {
    pub rows: [Row; Catalogue::ROWS],
    pub workers: [Worker; Catalogue::WORKERS],
}

// ---- What a line does ----

// The rows that a line writes, the first one first.
#[derive(Clone, Copy, Debug, PartialEq, Eq)]
pub enum Write {
    NoRow,
    OneRow(u8, Row),
    TwoRows(u8, Row, u8, Row),
}

// What becomes of the pending helps.
#[derive(Clone, Copy, Debug, PartialEq, Eq)]
pub enum Stack {
    Keep,
    Push(Pending),
    Pop,
}

#[derive(Clone, Copy, Debug, PartialEq, Eq)]
pub struct Effect {
    pub line: Line,
    pub write: Write,
    pub stack: Stack,
}

// ---- Calls and what they give back ----

// A call of the catalogue, with any numbers.
#[derive(Clone, Copy, Debug, PartialEq, Eq)]
pub enum Call {
    Submit {
        worker: u32,
        code: u32,
        key: u32,
        element: u32,
    },
    Step {
        worker: u32,
    },
}

// After a submit or a step. No `Result`: the state comes back on a refusal too, as it was (`refused_changes_nothing`).
#[derive(Clone, Copy, Debug, PartialEq, Eq)]
pub struct Stepped {
    pub verdict: Verdict,
    pub state: Catalogue,
}

// After a submit or a step on packed rows: the rows are in the words that were lent. The workers come back on a refusal too.
#[derive(Clone, Copy, Debug, PartialEq, Eq)]
pub struct Called {
    pub verdict: Verdict,
    pub workers: [Worker; Catalogue::WORKERS],
}

// After a turn: the steps taken, and the lent worker record as the loop finds it, on a refusal too (`turn_untaken`).
#[derive(Clone, Copy, Debug, PartialEq, Eq)]
pub struct Turned {
    pub verdict: Verdict,
    pub steps: u32,
    pub state: Catalogue,
    pub lent: Worker,
}

// ---- The empty catalogue ----

pub fn free_row() -> Row
    ensures { result ≡ free_row }
{
    Row {
        key: 0,
        element: 0,
        backlink: 0,
        succ: Succ {
            right: 0,
            mark: false,
            flag: false,
        },
        standing: Standing::Free,
    }
}

// Head and tail: linked, and known by their row number alone.
fn end_row(right: u8) -> Row
    ensures { result ≡ end_row right }
{
    let succ = Succ {
        right,
        mark: false,
        flag: false,
    };
    Row {
        succ,
        standing: Standing::Linked,
        ..free_row()
    }
}

// A worker at a line, all other registers zero.
pub fn fresh_worker(line: Line) -> Worker
    ensures { result ≡ fresh_worker line }
{
    Worker {
        line,
        helps: [Pending::default(); Catalogue::HELPS],
        count: 0,
    }
}

pub fn idle_worker(answer: Answer) -> Worker
    ensures { result ≡ idle_worker answer }
{
    fresh_worker(Line::Idle(answer))
}

impl Catalogue {
    pub const ROWS: usize = 128;

    pub const WORKERS: usize = 8;

    pub const HELPS: usize = 8;

    pub fn empty() -> Self
        ensures { result ≡ empty_catalogue }
    {
        let mut rows = [free_row(); Self::ROWS];
        rows[0] = end_row(1);
        rows[1] = end_row(0);
        Catalogue {
            rows,
            workers: [idle_worker(Answer::NoAnswer); Self::WORKERS],
        }
    }
}
