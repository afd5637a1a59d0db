// The order of rows. The head, row 0, is below every key and the tail, row 1, above every key.

ghost use Rattle.std.specs.Prelude.{◌≡◌};
ghost use Rattle.model.specs.Order.{key_at_most, key_below, has_key};

use tables::Table;

pub const HEAD: u8 = 0;

const TAIL: u8 = 1;

// "row.key ≤ k"
#[tactic(auto, unfolding(model::specs::Order::key_at_most))]
pub fn key_at_most<T: Table>(table: &T, i: u8, k: u32) -> bool
    ensures { result ≡ key_at_most (T.rows table.now) i k }
{
    match i {
        TAIL => false,
        HEAD => true,
        _ => table.row(i).key <= k,
    }
}

// "row.key ≤ k − ε"
#[tactic(auto, unfolding(model::specs::Order::key_below))]
pub fn key_below<T: Table>(table: &T, i: u8, k: u32) -> bool
    ensures { result ≡ key_below (T.rows table.now) i k }
{
    match i {
        TAIL => false,
        HEAD => true,
        _ => table.row(i).key < k,
    }
}

// "row.key == k"
#[tactic(auto, unfolding(model::specs::Order::has_key))]
pub fn has_key<T: Table>(table: &T, i: u8, k: u32) -> bool
    ensures { result ≡ has_key (T.rows table.now) i k }
{
    match i {
        TAIL | HEAD => false,
        _ => table.row(i).key == k,
    }
}
