// The run of a schedule file, event by event. Every record is an event, numbered from 1.

ghost use Rattle.std.specs.Prelude.{◌≡◌};
ghost use Rattle.schedule.specs.Events.{start_run, Happens, Advances};

use crate::printed::event_text;
use crate::text::Text;
use model::Catalogue;
use schedule_file::record_call;

// Where a run stands: the state, the number of the next event, and where its record begins.
#[derive(Clone, Copy, Debug)]
pub struct Run {
    pub state: Catalogue,
    pub event: u32,
    pub at: usize,
}

// After an event: where the run stands now, and what the event prints, empty if nothing.
#[derive(Clone, Copy, Debug)]
pub struct Event {
    pub run: Run,
    pub text: Text,
}

impl Run {
    // The empty catalogue, before the first event. The records begin behind the version byte and the length.
    pub fn start() -> Self
        ensures { result ≡ start_run }
    {
        Run {
            state: Catalogue::empty(),
            event: 1,
            at: 3,
        }
    }

    // Makes the call of the next record, and gives what the event prints, empty if nothing. Past the last record nothing happens, and
    // None is given. The event number is kept in 32 bits: a file that is not refused has fewer events by far.
    #[tactic(auto, using(crate::specs::Events::moves))]
    pub fn advance(&mut self, file: &[u8]) -> Option<Text>
        ensures { Advances file.now self.old result self.new }
    {
        let n = *file.get(self.at)?;
        let call = record_call(n, &file[self.at + 1..]);
        let stepped = engine::call(self.state, call);
        let text = event_text(self.event, call, &stepped);
        self.state = stepped.state;
        self.event = self.event.wrapping_add(1);
        self.at += 1 + usize::from(n);
        Some(text)
    }
}

// The same of a run by value. Past the last record it is given back as it was, and nothing is printed.
#[tactic(auto, using(crate::specs::Events::moves))]
pub fn next_event(file: &[u8], run: Run) -> Event
    ensures { Happens file.now run result }
{
    let mut next = run;
    let text = next.advance(file).unwrap_or(Text::new());
    Event { run: next, text }
}
