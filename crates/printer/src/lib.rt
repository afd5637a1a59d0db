// What a schedule file prints, written to a writer: for the program and for the test program over all schedules. The crate `schedule` has
// the lines; here it is shown that a writer whose bytes are known gets every byte that the model prints for the file, and no other, or,
// where a write fails, a first part of them.

#![tactic(auto)]

mod input;
mod output;

ghost use Rattle.std.specs.Prelude.{◌≡◌, IfSome, IfOk, OnOk, OnErr};
ghost use Rattle.std.specs.Io.KnownBytes.{Appends};
ghost use Rattle.model.specs.Schedule.{file_verdict};
ghost use Rattle.model.specs.Printed.{printed};
ghost use Rattle.printer.specs.Written.{AppendsFront, all_lines};

pub use input::read_full;
use model::Verdict;
use output::show;
use schedule::Run;
use std::io;
use std::io::{Read, Write};

// Each event, one after another, and the last line: of a file that is not refused these are the lines of its run.
fn run_events<W: Write>(out: &mut W, file: &[u8]) -> io::Result<()>
    ensures written { OnOk result (file_verdict file.now ≡ Ok tt → Appends (W.contents out.old) (W.contents out.new) (all_lines file.now)) }
    ensures stopped { OnErr result (file_verdict file.now ≡ Ok tt → AppendsFront (W.contents out.old) (W.contents out.new) (all_lines file.now)) }
{
    let mut run = Run::start();
    while let Some(text) = run.advance(file) {
        show(out, &text)?;
    }
    show(out, &schedule::last_line(run.state))
}

// Prints all that the file prints, and answers whether it was refused. The only error is that of a write.
pub fn replay<W: Write>(out: &mut W, file: &[u8]) -> io::Result<Verdict>
    ensures verdict { IfOk result (λ verdict. verdict ≡ file_verdict file.now) }
    ensures written { OnOk result (Appends (W.contents out.old) (W.contents out.new) (printed file.now)) }
    ensures stopped { OnErr result (AppendsFront (W.contents out.old) (W.contents out.new) (printed file.now)) }
{
    let verdict = schedule_file::check(file);
    match verdict {
        Err(refusal) => show(out, &schedule::refused_file(refusal))?,
        Ok(()) => {
            show(out, &schedule::heading())?;
            run_events(out, file)?;
        }
    }
    Ok(verdict)
}

// The same of the file that this input gives, to its end. The largest file has 60,003 bytes; one byte more is read, so that a longer
// input is refused and not cut. The only errors are those of a read, before anything is written, and of a write.
pub fn replay_from<R: Read, W: Write>(input: &mut R, out: &mut W) -> io::Result<Verdict>
    ensures verdict { IfOk result (λ verdict. IfSome (R.remaining input.old) (λ file. verdict ≡ file_verdict file)) }
    ensures written { OnOk result (IfSome (R.remaining input.old) (λ file. Appends (W.contents out.old) (W.contents out.new) (printed file))) }
    ensures stopped { OnErr result (IfSome (R.remaining input.old) (λ file. AppendsFront (W.contents out.old) (W.contents out.new) (printed file))) }
{
    let mut buffer = [0u8; 60004];
    let n = read_full(input, &mut buffer)?;
    replay(out, &buffer[..n])
}
