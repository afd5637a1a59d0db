// What the program prints of both tables.

use crate::both::Tables;
use std::io;

pub fn tables(rt: &impl Print, tables: &Tables) -> io::Result<()> {
    let Tables {
        calls,
        refused,
        different,
        ..
    } = *tables;
    println!(rt; "calls {calls}, refused {refused}, different {different}")
}

// The words of each row that is not zero.
pub fn rows(rt: &impl Print, words: &[u32; 512]) -> io::Result<()> {
    for (i, row) in words.as_chunks::<4>().0.iter().enumerate() {
        let [key, element, succ, rest] = *row;
        if *row != [0; 4] {
            println!(rt; "  row {i}: {key} {element} {succ} {rest}")?;
        }
    }
    Ok(())
}

// The words as digits to the base 31, modulo 2 to the power 32.
pub fn digest(words: &[u32; 512]) -> u32 {
    words.iter().fold(
        0u32,
        |total, word| total.wrapping_mul(31).wrapping_add(*word),
    )
}
