// The schedule file, for `schedule` and `printer`: whether it is refused, and the call of a record. A record's bytes are read behind its
// length byte.

#![tactic(auto)]

ghost use Rattle.std.specs.Prelude.{◌+◌, ◌<◌, ◌≡◌, length};
ghost use Rattle.model.specs.Schedule.{byte_at, four_bytes, records_fit, file_verdict, record_call};

use model::{Call, Refusal, Verdict};

// ---- Whether the file is refused ----

// A record is 1 byte or 10 behind its length byte.
#[tactic(auto, using(crate::specs::Records::one_record), unfolding(model::specs::Schedule::record_fits))]
fn records_fit(body: &[u8]) -> bool
    ensures { result ≡ records_fit (length body.now) body.now }
{
    let mut records = body;
    while let Some((&n, rest)) = records.split_first() {
        records = match (n, rest) {
            (1, [_, left @ ..]) => left,
            (10, [_, _, _, _, _, _, _, _, _, _, left @ ..]) => left,
            _ => return false,
        };
    }
    true
}

// The whole file is checked before its first event. Refusals 8 (short), 7, 10, 8 (length), 9.
#[tactic(auto, unfolding(model::specs::Schedule::file_verdict, model::specs::Schedule::two_bytes))]
pub fn check(file: &[u8]) -> Verdict
    ensures { result ≡ file_verdict file.now }
{
    let &[version, high, low, ref body @ ..] = file else {
        return Err(Refusal::FileLength);
    };
    let stated = u16::from_be_bytes([high, low]);
    if version != 1 {
        return Err(Refusal::FileVersion);
    }
    if 60_000 < stated {
        return Err(Refusal::FileTooLong);
    }
    if usize::from(stated) != body.len() {
        return Err(Refusal::FileLength);
    }
    if !records_fit(body) {
        return Err(Refusal::FileRecord);
    }
    Ok(())
}

// ---- The call of a record ----

// The byte at i, 0 past the end.
fn byte_at(bytes: &[u8], i: usize) -> u8
    ensures { result ≡ byte_at bytes.now i }
{
    bytes.get(i).copied().unwrap_or(0)
}

// Four bytes, big-endian.
#[tactic(auto, unfolding(model::specs::Schedule::four_bytes, model::specs::Schedule::two_bytes))]
fn four_bytes(bytes: &[u8], i: usize) -> u32
    requires { i < 8 }
    ensures { result ≡ four_bytes bytes.now i }
{
    u32::from_be_bytes([
        byte_at(bytes, i),
        byte_at(bytes, i + 1),
        byte_at(bytes, i + 2),
        byte_at(bytes, i + 3),
    ])
}

#[tactic(auto, unfolding(model::specs::Schedule::record_call))]
pub fn record_call(n: u8, rest: &[u8]) -> Call
    ensures { result ≡ record_call n rest.now }
{
    let worker = u32::from(byte_at(rest, 0));
    match n {
        1 => Call::Step { worker },
        _ => Call::Submit {
            worker,
            code: u32::from(byte_at(rest, 1)),
            key: four_bytes(rest, 2),
            element: four_bytes(rest, 6),
        },
    }
}
