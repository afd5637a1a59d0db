// A worker's record: whether it is idle, and its pending helps.

ghost use Rattle.std.specs.Prelude.{◌≡◌, set};
ghost use Rattle.model.specs.State.{help_at, idle};
ghost use Rattle.model.specs.Step.{ninth_help};

use model::{Catalogue, Line, Pending, Stack};

pub fn is_idle(line: Line) -> bool
    ensures { result ≡ idle line }
{
    matches!(line, Line::Idle(_))
}

pub fn help_at(helps: [Pending; Catalogue::HELPS], i: u8) -> Pending
    ensures { result ≡ help_at helps i }
{
    helps.get(usize::from(i)).copied().unwrap_or_default()
}

pub fn with_help(
    helps: [Pending; Catalogue::HELPS],
    i: u8,
    help: Pending,
) -> [Pending; Catalogue::HELPS]
    ensures { result ≡ set helps i help }
{
    let mut after = helps;
    let slot = usize::from(i);
    if slot < Catalogue::HELPS {
        after[slot] = help;
    }
    after
}

#[tactic(auto, unfolding(model::specs::Step::ninth_help))]
pub fn ninth_help(count: u8, stack: Stack) -> bool
    ensures { result ≡ ninth_help count stack }
{
    match stack {
        Stack::Push(_) => 8 <= count,
        Stack::Keep | Stack::Pop => false,
    }
}
