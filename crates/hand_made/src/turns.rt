// Turns on a lent worker record: what is returned, and what the record and the state are afterwards.

use crate::show::{Shown, remark};
use crate::states::{
    INSERT, LARGEST_BUDGET, asked, at_line, flagged, helping, inserting, record_of, with_worker,
};
use model::{Answer, Catalogue, HelpLine, InsertLine, Line, Worker, idle_worker};
use std::io;

// A turn that is to be taken. The record that it lends need not be the one that the state has.
#[derive(Clone, Copy)]
pub struct Turn {
    pub state: Catalogue,
    pub worker: u32,
    pub record: Worker,
}

impl Turn {
    // Of the worker's own record.
    pub fn own(state: Catalogue, worker: u32) -> Self {
        Turn {
            state,
            worker,
            record: record_of(&state, worker),
        }
    }

    pub fn show(&self, rt: &impl Print, name: &str, budget: u32) -> io::Result<()> {
        let Turn {
            state,
            worker,
            record,
        } = *self;
        let turned = lent::turn_of(state, worker, budget, record);
        let verdict = Shown(turned.verdict);
        let steps = turned.steps;
        let line = Shown(turned.lent.line);
        print!(rt; "{name}, budget {budget}: {verdict}, steps {steps}, {line}")?;
        let exists = worker < 8;
        let as_in_state = exists && turned.lent == record_of(&turned.state, worker);
        let with_lent = exists && turned.state == with_worker(state, worker, record);
        remark(rt, turned.lent == record, "record as lent")?;
        remark(rt, as_in_state, "record as in the state")?;
        remark(rt, with_lent, "state with the lent record")?;
        remark(rt, turned.state == state, "state as given")?;
        rt.println("")
    }

    // With several budgets, each time from this state.
    pub fn show_each(&self, rt: &impl Print, name: &str) -> io::Result<()> {
        for budget in [0, 1, 7, LARGEST_BUDGET, 8193] {
            self.show(rt, name, budget)?;
        }
        Ok(())
    }
}

// The lent record is not the one that the state has: it stands for that one in the checks and in the state returned.
pub fn show_other_records(rt: &impl Print) -> io::Result<()> {
    let empty = Catalogue::empty();
    let busy_state = asked(empty, 0, INSERT, 5, 50);
    let names_free_row = inserting(InsertLine::Insert17 { new: 5 }, 0);
    let lent_busy = Turn {
        state: empty,
        worker: 0,
        record: record_of(&busy_state, 0),
    };
    let lent_idle = Turn {
        state: busy_state,
        worker: 0,
        record: idle_worker(Answer::NoAnswer),
    };
    let lent_broken = Turn {
        record: names_free_row,
        ..lent_busy
    };
    let state_broken = Turn {
        state: with_worker(empty, 0, names_free_row),
        ..lent_busy
    };
    let with_help = Turn {
        record: at_line(Line::Idle(Answer::NoAnswer), 1),
        ..lent_busy
    };
    let no_worker = Turn {
        worker: 8,
        ..lent_busy
    };
    for budget in [0, LARGEST_BUDGET, 8193] {
        lent_busy.show(rt, "idle in the state, lent busy", budget)?;
    }
    lent_idle.show(rt, "busy in the state, lent idle", 7)?;
    for budget in [7, 8193] {
        lent_broken.show(rt, "lent record names a free row", budget)?;
    }
    state_broken.show(
        rt,
        "the state's record names a free row, lent busy",
        LARGEST_BUDGET,
    )?;
    with_help.show(rt, "lent idle with a pending help", 7)?;
    for budget in [7, 8193] {
        no_worker.show(rt, "worker 8, lent busy", budget)?;
    }
    Ok(())
}

// Row 2 is flagged for row 3; the lent record has eight pending helps.
pub fn show_ninth_help(rt: &impl Print) -> io::Result<()> {
    let marking = Turn {
        state: flagged(),
        worker: 0,
        record: at_line(helping(HelpLine::TryMark3 { right: 3 }), 8),
    };
    let earlier = Turn {
        record: at_line(helping(HelpLine::TryMark2), 8),
        ..marking
    };
    marking.show(rt, "lent with eight helps, before the push of a ninth", 7)?;
    earlier.show(rt, "lent with eight helps, one step earlier", 7)
}
