// Every schedule of the folder `schedules`, one after another: its name, and what it prints. The stored output is what it must be.

#![tactic(auto)]

use std::env::{Env, FillError};
use std::fs::{File, Files};
use std::io;

// The file of this name. A path is text, so a name that is none cannot be opened.
fn opened<R: Files>(files: &R, name: &[u8]) -> Option<R::File> {
    let path = str::from_utf8(name).ok()?;
    File::open(files, path).ok()
}

// The name, and what its file prints.
fn replay_file(rt: &(impl Files + Print), name: &[u8]) -> io::Result<()> {
    let mut out = io::writer(rt);
    rt.write_all(name)?;
    rt.println("")?;
    let Some(mut file) = opened(rt, name) else {
        return rt.println("cannot be opened");
    };
    let _ = printer::replay_from(&mut file, &mut out)?;
    Ok(())
}

// The files that the arguments name, each read into the same array, since `env::args` takes memory. A name of more than 100 bytes stands as
// an empty one, which no file has.
fn main(rt: HostRuntime) -> io::Result<()> {
    let mut name = [0u8; 100];
    for i in 1..usize::MAX {
        let n = match rt.arg(i, &mut name) {
            Ok(n) => n,
            Err(FillError::TooLong) => 0,
            Err(FillError::NotPresent) => break,
        };
        replay_file(&rt, &name[..n])?;
    }
    Ok(())
}
