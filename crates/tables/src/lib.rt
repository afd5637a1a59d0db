// A table of rows, however it is kept: `Table`, for the arrays of row records and for the packed words. Every line of the published
// routines, and the step, is one function over any such table.

#![tactic(auto)]

ghost use Rattle.std.specs.Prelude.{◌≡◌, List, length, set, ⊤};
ghost use Rattle.model.specs.State.{row_at};
ghost use Rattle.model.specs.Packed.{unpacked, packed};
ghost use Rattle.model.specs.declared.Row.{Row};

use model::{Catalogue, Row, free_row};
use packed_rows::{row_at, store_row};

// A look-up is total: a row number past the last row reads as the free row, and nothing is stored there.
pub trait Table {
    // The rows that it stands for.
    ghost rows: { Self → List Row };

    // What such a table may have of its own beside the rows, and keeps whatever is stored.
    ghost IsSound: { Self → Type 0 };

    fn row(&self, i: u8) -> Row
        ensures row { result ≡ row_at (rows self.now) i }
        ensures size { length (rows self.now) ≡ 128 };

    fn store(&mut self, i: u8, row: Row)
        ensures rows { rows self.new ≡ set (rows self.old) i row }
        ensures sound { IsSound self.old → IsSound self.new };
}

impl Table for [Row; Catalogue::ROWS] {
    ghost rows = { λ rows. rows };

    ghost IsSound = { λ _. ⊤ };

    fn row(&self, i: u8) -> Row {
        if i < 128 {
            return self[usize::from(i)];
        }
        free_row()
    }

    fn store(&mut self, i: u8, row: Row) {
        if i < 128 {
            self[usize::from(i)] = row;
        }
    }
}

// Sound are the words that packing gives.
impl Table for [u32; 512] {
    ghost rows = { unpacked };

    ghost IsSound = { λ words. packed (unpacked words) ≡ words };

    fn row(&self, i: u8) -> Row {
        row_at(self, i)
    }

    fn store(&mut self, i: u8, row: Row) {
        store_row(self, i, row);
    }
}
