// The rows that are not free.

ghost use Rattle.std.specs.Prelude.{◌≡◌};
ghost use Rattle.model.specs.Count.{taken};

use model::{Catalogue, Standing};

// The rows not free among 2 to 127.
#[tactic(auto, unfolding(model::specs::Count::taken))]
pub fn taken(state: &Catalogue) -> u32
    ensures { result ≡ taken state.now.rows }
{
    state.rows[2..]
        .iter()
        .filter(|row| row.standing != Standing::Free)
        .count() as u32
}
