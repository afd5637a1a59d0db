// A printed line, its line feed among its bytes. No line of a run has more than 48 bytes, whatever its numbers. It is put together part by
// part: what `write!` writes is said only where it gives Ok, and no clause says that it does.

ghost use Rattle.std.specs.Prelude.{◌≡◌, ◌+◌, ◌<◌, ◌≤◌, ◌==◌, [], ◌∷◌, ◌++◌, length};
ghost use Rattle.model.specs.Printed.{decimal};

use itoa::Buffer;
use std::marker::Model;

// An array with its length, since a printed line is copied freely, and an `ArrayVec` is not `Copy`. A clause sees the bytes that are held.
// Zeros stand behind them, so that they determine the whole text.
#[derive(Clone, Copy, Debug)]
pub struct Text {
    bytes: [u8; 48],
    len: usize,
}

impl Model for Text {
    ghost use Rattle.std.specs.Prelude.{ℕ, ◌-◌, List, ◌++◌, length, take, replicate};
    ghost use Rattle.schedule.specs.Padded.{Padded, held_length, padded_whole};

    ghost Value = { List ℕ };

    ghost view = { λ t. take t.len t.bytes };

    ghost invariant = { λ t. Padded t.bytes t.len };

    ghost inverse = { λ bytes. record { bytes = bytes ++ replicate (48 - length bytes) 0; len = length bytes } };

    ghost inverse_ok = { λ t padded i. record { bytes = padded_whole padded i; len = held_length padded i } };
}

impl Text {
    pub fn new() -> Self
        ensures { result ≡ [] }
    {
        Text {
            bytes: [0; 48],
            len: 0,
        }
    }

    pub fn len(&self) -> usize
        ensures value { result ≡ length self.now }
        ensures fits { result ≤ 48 }
    {
        self.as_slice().len()
    }

    pub fn is_empty(&self) -> bool
        ensures { result ≡ (length self.now == 0) }
    {
        self.as_slice().is_empty()
    }

    pub fn as_slice(&self) -> &[u8]
        ensures value { result.now ≡ self.now }
        ensures fits { length result.now ≤ 48 }
    {
        &self.bytes[..self.len]
    }

    // One byte more, for which there must be room.
    pub(crate) fn push(&mut self, b: u8)
        requires { length self.old < 48 }
        ensures { self.new ≡ self.old ++ b ∷ [] }
    {
        self.bytes[self.len] = b;
        self.len += 1;
    }
}

// These bytes more, for which there must be room.
pub fn put(text: &mut Text, bytes: &[u8])
    requires { length text.old + length bytes.now ≤ 48 }
    ensures { text.new ≡ text.old ++ bytes.now }
{
    let start = text.len;
    text.len += bytes.len();
    text.bytes[start..text.len].copy_from_slice(bytes);
}

// The decimal digits of n.
#[tactic(auto, using(crate::specs::Digits::decimal_same))]
pub fn put_decimal(text: &mut Text, n: u32)
    requires { length text.old + 10 ≤ 48 }
    ensures digits { text.new ≡ text.old ++ decimal n }
    ensures room { length text.new ≤ length text.old + 10 }
{
    let mut buffer = Buffer::new();
    put(text, buffer.format(n).as_bytes());
}
