// Rows in lent words: one read, one stored, the rows of a write stored, and whether the words are a row's. The layout is the model's, in
// `specs/Packed.antt`: key, element, successor, and the rest.

#![tactic(auto)]

ghost use Rattle.std.specs.Prelude.{◌<◌, ◌≡◌, length};
ghost use Rattle.model.specs.State.{row_at};
ghost use Rattle.model.specs.Packed.{succ_word, standing_number, rest_word, succ_from, standing_from, row_from, unpacked, packs_row};
ghost use Rattle.packing.specs.OneRow.{Bytes};
ghost use Rattle.packing.specs.Stored.{stored_row, stored};

use model::{Row, Standing, Succ, Write, free_row};

// ---- A row from its words ----

#[tactic(auto, unfolding(model::specs::Packed::succ_from))]
fn succ_from(word: u32) -> Succ
    ensures { result ≡ succ_from word }
{
    Succ {
        right: (word / 4 % 256) as u8,
        mark: word / 2 % 2 == 1,
        flag: word % 2 == 1,
    }
}

#[tactic(auto, unfolding(model::specs::Packed::standing_from))]
fn standing_from(number: u32) -> Standing
    ensures { result ≡ standing_from number }
{
    match number {
        0 => Standing::Free,
        1 => Standing::Linked,
        _ => Standing::Held(((number - 2) % 256) as u8),
    }
}

#[tactic(auto, unfolding(model::specs::Packed::row_from))]
fn row_from(key: u32, element: u32, succ: u32, rest: u32) -> Row
    ensures { result ≡ row_from key element succ rest }
{
    Row {
        key,
        element,
        backlink: (rest % 256) as u8,
        succ: succ_from(succ),
        standing: standing_from(rest / 256),
    }
}

// Row i, the free row past the last.
pub fn row_at(words: &[u32], i: u8) -> Row
    requires { length words.now ≡ 512 }
    ensures { result ≡ row_at (unpacked words.now) i }
{
    match words.as_chunks::<4>().0.get(usize::from(i)) {
        Some(&[key, element, succ, rest]) => row_from(key, element, succ, rest),
        None => free_row(),
    }
}

// ---- A row's words ----

#[tactic(auto, unfolding(model::specs::Packed::succ_word))]
fn succ_word(succ: Succ) -> u32
    ensures { result ≡ succ_word succ }
{
    u32::from(succ.right) * 4 + u32::from(succ.mark) * 2 + u32::from(succ.flag)
}

// The layout's own numbers (`standing_number` of the model): a held row's is two above its worker's.
fn standing_number(standing: Standing) -> u32
    ensures { (result ≡ standing_number standing) × (result < 258) }
{
    match standing {
        Standing::Free => 0,
        Standing::Linked => 1,
        Standing::Held(worker) => u32::from(worker) + 2,
    }
}

// Every row of the code can be packed: its numbers are bytes.
#[tactic(auto, unfolding(model::specs::Packed::rest_word))]
fn rest_word(row: Row) -> u32
    ensures { (result ≡ rest_word row) × Bytes row }
{
    standing_number(row.standing) * 256 + u32::from(row.backlink)
}

// Stores row i; past the last nothing is stored.
#[tactic(auto, unfolding(packing::specs::Stored::stored_row))]
pub fn store_row(words: &mut [u32], i: u8, row: Row)
    requires { length words.old ≡ 512 }
    ensures { (words.new ≡ stored_row words.old i row) × Bytes row }
{
    let at = usize::from(i) * 4;
    let rest = rest_word(row);
    if at < 512 {
        words[at] = row.key;
        words[at + 1] = row.element;
        words[at + 2] = succ_word(row.succ);
        words[at + 3] = rest;
    }
}

// The rows that a line writes.
#[tactic(auto, unfolding(packing::specs::Stored::stored))]
pub fn store(words: &mut [u32], write: Write)
    requires { length words.old ≡ 512 }
    ensures { words.new ≡ stored words.old write }
{
    match write {
        Write::NoRow => {}
        Write::OneRow(i, row) => store_row(words, i, row),
        Write::TwoRows(i, row, j, other) => {
            store_row(words, i, row);
            store_row(words, j, other);
        }
    }
}

// ---- Tests ----

// Whether these are the last two words of a row: packing what they are read as gives them back.
#[tactic(auto, unfolding(model::specs::Packed::packs_row))]
pub fn packs_row(succ: u32, rest: u32) -> bool
    ensures { result ≡ packs_row succ rest }
{
    succ_word(succ_from(succ)) == succ && rest_word(row_from(0, 0, succ, rest)) == rest
}
