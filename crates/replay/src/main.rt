// The program: a schedule file from standard input, what it prints to standard output. A refused file is told by what is printed alone. A
// read or a write that fails ends it with the error.

#![tactic(auto)]

use std::io;

fn main(rt: HostRuntime) -> io::Result<()> {
    let _ = printer::replay_from(&mut rt.stdin(), &mut rt.stdout())?;
    Ok(())
}
