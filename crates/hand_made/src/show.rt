// What the program prints of a verdict and of a worker's line, and what it remarks.

use model::{Answer, Line, Verdict};
use std::{fmt, io};

#[derive(Clone, Copy)]
pub struct Shown<T>(pub T);

// `accepted`, or `r` and the refusal's number.
impl fmt::Display for Shown<Verdict> {
    fn fmt<W: fmt::Write>(&self, f: &mut fmt::Formatter<W>) -> fmt::Result {
        match self.0 {
            Ok(()) => write!(f, "accepted"),
            Err(refusal) => write!(f, "r{}", u32::from(refusal)),
        }
    }
}

// The last answer of an idle worker, or that it is busy.
impl fmt::Display for Shown<Line> {
    fn fmt<W: fmt::Write>(&self, f: &mut fmt::Formatter<W>) -> fmt::Result {
        match self.0 {
            Line::Idle(Answer::NoAnswer) => write!(f, "no answer"),
            Line::Idle(Answer::Found(element)) => write!(f, "Found {element}"),
            Line::Idle(Answer::Removed(element)) => write!(f, "Removed {element}"),
            Line::Idle(answer) => write!(f, "{answer:?}"),
            _ => write!(f, "busy"),
        }
    }
}

// A remark is printed where it holds.
pub fn remark(rt: &impl Print, holds: bool, text: &str) -> io::Result<()> {
    if holds {
        print!(rt; ", {text}")?;
    }
    Ok(())
}
