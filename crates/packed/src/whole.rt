// Whole tables: whether words pack 128 rows, the state that they stand for, and a catalogue packed and unpacked.

ghost use Rattle.std.specs.Prelude.{◌≡◌};
ghost use Rattle.model.specs.Packed.{packs_rows, state_of, packed_well, unpack};
ghost use Rattle.packed.specs.Tables.{PackedTable, Packing};

use model::{Catalogue, Refusal, Stepped, Worker};
use packed_rows::{packs_row, store_row};
use std::array;
use tables::Table;
use well_formed::well_formed;

// Whether the words are the packing of 128 rows.
fn packs_rows(words: &[u32; 512]) -> bool
    ensures { result ≡ packs_rows words.now }
{
    let (rows, _) = words.as_chunks::<4>();
    rows.iter().all(|&[_, _, succ, rest]| packs_row(succ, rest))
}

// The words as a table, if they pack 128 rows.
pub fn packing_of(words: &[u32]) -> Option<&[u32; 512]>
    ensures { PackedTable words.now result }
{
    let table = words.as_array::<512>()?;
    packs_rows(table).then_some(table)
}

// The state that 512 words and the workers stand for.
pub fn state_of(words: &[u32; 512], workers: [Worker; Catalogue::WORKERS]) -> Catalogue
    ensures { result ≡ state_of words.now workers }
{
    Catalogue {
        rows: array::from_fn(|i| words.row(i as u8)),
        workers,
    }
}

// Whether the words are the packing of a well-formed state.
#[tactic(auto, unfolding(model::specs::Packed::packed_well))]
pub fn packed_well(words: &[u32; 512], workers: [Worker; Catalogue::WORKERS]) -> bool
    ensures { result ≡ packed_well words.now workers }
{
    packs_rows(words) && well_formed(state_of(words, workers))
}

// The rows of a catalogue go into 512 words. Another number of words is refused with 4, and nothing is written.
pub fn pack(state: Catalogue, words: &mut [u32]) -> Result<(), Refusal>
    ensures { Packing state words.old result words.new }
{
    if words.len() != 512 {
        return Err(Refusal::NotWellFormed);
    }
    for (i, row) in state.rows.iter().enumerate() {
        store_row(words, i as u8, *row);
    }
    Ok(())
}

// Words that pack no rows are refused with 4, and the catalogue is the empty one: no `Result`, as the model's `unpack` says so.
#[tactic(auto, unfolding(model::specs::Packed::unpack))]
pub fn unpack(words: &[u32], workers: [Worker; Catalogue::WORKERS]) -> Stepped
    ensures { result ≡ unpack words.now workers }
{
    match packing_of(words) {
        Some(table) => Stepped {
            verdict: Ok(()),
            state: state_of(table, workers),
        },
        None => Stepped {
            verdict: Err(Refusal::NotWellFormed),
            state: Catalogue::empty(),
        },
    }
}
