// Writing bytes, and lines.

ghost use Rattle.std.specs.Prelude.{OnOk, OnErr};
ghost use Rattle.std.specs.Io.KnownBytes.{Appends};
ghost use Rattle.schedule.specs.Shown.{shown};
ghost use Rattle.printer.specs.Written.{AppendsFront};

use schedule::Text;
use std::io;
use std::io::Write;

// Writes all of the bytes, or stops at the first write that takes nothing or fails. What std's `write_all` leaves then, no clause says.
pub fn write_bytes<W: Write>(out: &mut W, bytes: &[u8]) -> io::Result<()>
    ensures written { OnOk result (Appends (W.contents out.old) (W.contents out.new) bytes.now) }
    ensures stopped { OnErr result (AppendsFront (W.contents out.old) (W.contents out.new) bytes.now) }
{
    let mut rest = bytes;
    while !rest.is_empty() {
        match out.write(rest)? {
            0 => return Err(io::Error::from(io::ErrorKind::WriteZero)),
            n => rest = &rest[n..],
        }
    }
    Ok(())
}

// The bytes of a line.
pub fn show<W: Write>(out: &mut W, text: &Text) -> io::Result<()>
    ensures written { OnOk result (Appends (W.contents out.old) (W.contents out.new) (shown text.now)) }
    ensures stopped { OnErr result (AppendsFront (W.contents out.old) (W.contents out.new) (shown text.now)) }
{
    write_bytes(out, text.as_slice())
}
