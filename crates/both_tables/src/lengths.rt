// Words that pack no rows: each is 1024, which is no successor, and most are too few or too many. Unpacking gives the empty catalogue, and
// calls are refused. Packing the empty catalogue into them writes 512 words, and nothing into another number of words.

ghost use Rattle.std.specs.Prelude.{◌≤◌};

use model::{Catalogue, Verdict};
use std::io;

// 0, or the refusal's number.
fn number(verdict: Verdict) -> u32 {
    match verdict {
        Ok(()) => 0,
        Err(refusal) => u32::from(refusal),
    }
}

// A remark is printed where it holds.
fn remark(rt: &impl Print, holds: bool, text: &str) -> io::Result<()> {
    if holds {
        rt.print(text)?;
    }
    Ok(())
}

fn show_calls(rt: &impl Print, words: &mut [u32]) -> io::Result<()> {
    let empty = Catalogue::empty();
    let workers = empty.workers;
    let unpacked = packed::unpack(words, workers);
    let verdict = number(unpacked.verdict);
    print!(rt; ": unpack {verdict}")?;
    remark(rt, unpacked.state == empty, ", empty")?;
    let submit = number(packed::submit(words, workers, 0, 2, 5, 50).verdict);
    let step = number(packed::step(words, workers, 0).verdict);
    let step_8 = number(packed::step(words, workers, 8).verdict);
    print!(rt; ", submit {submit}, step {step}, step of worker 8 {step_8}")
}

// The first n of these words.
fn show_first(rt: &impl Print, all: &[u32; 516], n: usize) -> io::Result<()>
    requires { n ≤ 516 }
{
    let before = &all[..n];
    let mut copy = *all;
    let words = &mut copy[..n];
    print!(rt; "words {n}")?;
    show_calls(rt, words)?;
    remark(rt, *words == *before, ", words as they were")?;
    let pack = number(packed::pack(Catalogue::empty(), words));
    print!(rt; ", pack {pack}")?;
    remark(rt, *words == *before, ", words as they were")?;
    rt.println("")
}

pub fn show(rt: &impl Print) -> io::Result<()> {
    let all = [1024; 516];
    for n in [0, 4, 511, 512, 513, 516] {
        show_first(rt, &all, n)?;
    }
    Ok(())
}
