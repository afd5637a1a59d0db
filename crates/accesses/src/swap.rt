// C&S on a row's successor.

ghost use Rattle.std.specs.Prelude.{◌≡◌};
ghost use Rattle.model.specs.State.{succ_of};
ghost use Rattle.model.specs.Cas.{same_succ, flagged_only, with_succ, cas};

use model::{Row, Succ, Write};
use tables::Table;

pub fn succ_of(right: u8, mark: bool, flag: bool) -> Succ
    ensures { result ≡ succ_of right mark flag }
{
    Succ { right, mark, flag }
}

// C&S compares all three parts.
#[tactic(auto, unfolding(model::specs::Cas::same_succ))]
pub fn same_succ(a: Succ, b: Succ) -> bool
    ensures { result ≡ same_succ a b }
{
    a == b
}

// "(*, 0, 1)"
#[tactic(auto, unfolding(model::specs::Cas::flagged_only))]
pub fn flagged_only(s: Succ) -> bool
    ensures { result ≡ flagged_only s }
{
    !s.mark && s.flag
}

pub fn with_succ(row: Row, succ: Succ) -> Row
    ensures { result ≡ with_succ row succ }
{
    Row { succ, ..row }
}

// What C&S at row i from `old` to `new` writes. Its result is the successor that stands there.
#[tactic(auto, unfolding(model::specs::Cas::cas))]
pub fn cas<T: Table>(table: &T, i: u8, old: Succ, new: Succ) -> Write
    ensures { result ≡ cas (T.rows table.now) i old new }
{
    let row = table.row(i);
    if same_succ(row.succ, old) {
        return Write::OneRow(i, with_succ(row, new));
    }
    Write::NoRow
}
