// What is printed: the heading, a line for each event that finishes a request or is refused, the last line, and the line of a refused
// file.

ghost use Rattle.std.specs.Prelude.{◌≡◌, ◌≤◌, ◌++◌, length};
ghost use Rattle.model.specs.State.{worker_at};
ghost use Rattle.model.specs.Printed.{decimal, heading, event_line, event_text, refused_file, last_line};
ghost use Rattle.schedule.specs.Shown.{Shows};

use crate::rows::taken;
use crate::text::{Text, put, put_decimal};
use lent::count_of;
use model::{Answer, Call, Catalogue, Line, Refusal, Stepped};

#[tactic(auto, unfolding(model::specs::Printed::heading))]
pub fn heading() -> Text
    ensures { Shows heading result }
{
    let mut text = Text::new();
    put(&mut text, b"event worker result element\n");
    text
}

// ---- The line of an event ----

// Event number, worker, result and element. A refusal's number has a letter before it.
#[tactic(auto, unfolding(model::specs::Printed::event_line))]
fn event_line(event: u32, worker: u32, letter: &[u8], number: u32, element: u32) -> Text
    requires { length letter.now ≤ 1 }
    ensures { Shows (event_line event worker (letter.now ++ decimal number) element) result }
{
    let mut text = Text::new();
    put_decimal(&mut text, event);
    text.push(b' ');
    put_decimal(&mut text, worker);
    text.push(b' ');
    put(&mut text, letter);
    put_decimal(&mut text, number);
    text.push(b' ');
    put_decimal(&mut text, element);
    text.push(b'\n');
    text
}

// Where a worker stands. A worker that is not there stands as a fresh one does.
fn line_of(state: &Catalogue, worker: u32) -> Line
    ensures { result ≡ (worker_at state.now.workers worker).line }
{
    match state.workers.get(worker as usize) {
        Some(found) => found.line,
        None => Line::Idle(Answer::NoAnswer),
    }
}

// What an event prints whose call gave this back: a refused call its refusal, a step that finished a request the answer, and any other
// nothing.
#[tactic(auto, unfolding(model::specs::Printed::event_text, model::specs::Printed::verdict_text, model::specs::Printed::accepted_text, model::specs::Printed::finish_line))]
pub fn event_text(event: u32, call: Call, stepped: &Stepped) -> Text
    ensures { Shows (event_text event call stepped.now) result }
{
    let (Call::Submit { worker, .. } | Call::Step { worker }) = call;
    if let Err(refusal) = stepped.verdict {
        return event_line(event, worker, b"r", u32::from(refusal), 0);
    }
    match (call, line_of(&stepped.state, worker)) {
        (Call::Step { .. }, Line::Idle(answer)) => {
            event_line(event, worker, b"", answer.number(), answer.element())
        }
        _ => Text::new(),
    }
}

// ---- A refused file, and the last line ----

#[tactic(auto, unfolding(model::specs::Printed::refused_file))]
pub fn refused_file(refusal: Refusal) -> Text
    ensures { Shows (refused_file refusal) result }
{
    let mut text = Text::new();
    put(&mut text, b"file ");
    put_decimal(&mut text, u32::from(refusal));
    text.push(b'\n');
    text
}

#[tactic(auto, unfolding(model::specs::Printed::last_line))]
pub fn last_line(state: Catalogue) -> Text
    ensures { Shows (last_line state) result }
{
    let mut text = Text::new();
    put(&mut text, b"count ");
    put_decimal(&mut text, count_of(state).unwrap_or(0));
    put(&mut text, b" rows ");
    put_decimal(&mut text, taken(&state));
    text.push(b'\n');
    text
}
