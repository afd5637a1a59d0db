// What a line does, as an effect, and the calls that the routines make of each other, each as the line at which the called routine
// begins.

ghost use Rattle.std.specs.Prelude.{◌≡◌};
ghost use Rattle.model.specs.Effects.{go, go_writing, finish, call_search_from, call_try_flag, call_help_flagged};

use model::{
    Answer, Effect, FlagFrame, FlagLine, HelpFrame, HelpLine, Line, SearchFrame, SearchLine, Stack,
    Write,
};

pub fn go(line: Line) -> Effect
    ensures { result ≡ go line }
{
    go_writing(Write::NoRow, line)
}

pub fn go_writing(write: Write, line: Line) -> Effect
    ensures { result ≡ go_writing write line }
{
    Effect {
        line,
        write,
        stack: Stack::Keep,
    }
}

pub fn finish(answer: Answer) -> Effect
    ensures { result ≡ finish answer }
{
    go(Line::Idle(answer))
}

pub fn call_search_from(frame: SearchFrame) -> Line
    ensures { result ≡ call_search_from frame.key frame.element frame.curr frame.caller }
{
    Line::Search(SearchLine::SearchFrom1, frame)
}

pub fn call_try_flag(frame: FlagFrame) -> Line
    ensures { result ≡ call_try_flag frame.key frame.prev frame.target }
{
    Line::Flag(FlagLine::TryFlag2, frame)
}

pub fn call_help_flagged(frame: HelpFrame) -> Line
    ensures { result ≡ call_help_flagged frame.key frame.element frame.prev frame.del frame.caller }
{
    Line::Help(HelpLine::HelpFlagged1, frame)
}
