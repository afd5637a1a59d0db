// The lowest free row.

ghost use Rattle.std.specs.Prelude.{◌≡◌};
ghost use Rattle.model.specs.Insert.{lowest_free};

use model::Standing;
use tables::Table;

// 128 if there is none.
pub fn lowest_free<T: Table>(table: &T) -> u8
    ensures { result ≡ lowest_free (T.rows table.now) }
{
    for i in 2..128 {
        if table.row(i).standing == Standing::Free {
            return i;
        }
    }
    128
}
