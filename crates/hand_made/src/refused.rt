// Calls that are refused: on states that are not well formed, one or two for each clause of document 01, and on others. Nothing changes.

use crate::show::{Shown, remark};
use crate::states::{
    INSERT, SEARCH, after, asked, at_line, flagged, helping, inserting, linked, with_row,
    with_worker,
};
use engine::{step, submit};
use model::{
    Answer, Catalogue, FlagFrame, FlagLine, HelpLine, InsertLine, Line, Pending, Row, Standing,
    Stepped, idle_worker,
};
use std::io;
use well_formed::well_formed;

// A call on the state `before`: its verdict, and what worker 0 and the state are afterwards.
fn show_call(rt: &impl Print, name: &str, before: &Catalogue, called: &Stepped) -> io::Result<()> {
    let verdict = Shown(called.verdict);
    let line = Shown(called.state.workers[0].line);
    print!(rt; "{name}: {verdict}, {line}")?;
    remark(rt, called.state == *before, "state as given")?;
    rt.println("")
}

fn turn_of(state: Catalogue) -> Stepped {
    let turned = lent::turn_of(state, 0, 3, state.workers[0]);
    Stepped {
        verdict: turned.verdict,
        state: turned.state,
    }
}

// Submit, step and turn on a state that is not well formed.
fn show_broken(rt: &impl Print, name: &str, state: Catalogue) -> io::Result<()> {
    if !well_formed(state) {
        rt.print("not ")?;
    }
    rt.print("well formed, ")?;
    show_call(rt, name, &state, &submit(state, 0, SEARCH, 5, 0))?;
    show_call(rt, "  step", &state, &step(state, 0))?;
    show_call(rt, "  turn", &state, &turn_of(state))
}

fn show_rows(rt: &impl Print) -> io::Result<()> {
    let far_back = Row {
        backlink: 128,
        ..linked(9, 1)
    };
    let mut both = linked(9, 1);
    both.succ.mark = true;
    both.succ.flag = true;
    let free = Row {
        standing: Standing::Free,
        ..linked(0, 1)
    };
    let held = Row {
        standing: Standing::Held(8),
        ..linked(9, 0)
    };
    let idle = Row {
        standing: Standing::Held(0),
        ..linked(9, 0)
    };
    let rows = [
        ("right 128", 5, linked(9, 128)),
        ("backlink 128", 127, far_back),
        ("mark and flag", 5, both),
        ("head free", 0, free),
        ("held by worker 8", 5, held),
        ("held by an idle worker", 5, idle),
    ];
    for (name, i, row) in rows {
        show_broken(rt, name, with_row(Catalogue::empty(), i, row))?;
    }
    Ok(())
}

fn show_workers(rt: &impl Print) -> io::Result<()> {
    let frame = FlagFrame {
        key: 5,
        prev: 0,
        target: 128,
    };
    let flagging = at_line(Line::Flag(FlagLine::TryFlag2, frame), 0);
    let mut slot = idle_worker(Answer::Absent);
    slot.helps[7] = Pending { prev: 0, del: 128 };
    let nine = at_line(helping(HelpLine::HelpFlagged1), 9);
    let idle = at_line(Line::Idle(Answer::Absent), 1);
    let names = inserting(InsertLine::Insert17 { new: 5 }, 0);
    let workers = [
        ("target 128", flagging),
        ("help slot 128, not in use", slot),
        ("nine pending helps", nine),
        ("pending help of an idle worker", idle),
        ("row named and not held", names),
    ];
    for (name, worker) in workers {
        show_broken(rt, name, with_worker(Catalogue::empty(), 0, worker))?;
    }
    Ok(())
}

// Numbers that do not exist, and workers that are busy or idle. A refused call leaves the last answer.
fn show_numbers(rt: &impl Print) -> io::Result<()> {
    let busy = asked(Catalogue::empty(), 0, SEARCH, 5, 0);
    show_call(rt, "busy, code 2", &busy, &submit(busy, 0, INSERT, 7, 70))?;
    show_call(rt, "busy, code 9", &busy, &submit(busy, 0, 9, 7, 70))?;
    let done = after(busy, 0, 1);
    show_call(rt, "code 0", &done, &submit(done, 0, 0, 5, 0))?;
    show_call(rt, "code 4", &done, &submit(done, 0, 4, 5, 0))?;
    show_call(rt, "worker 8, code 4", &done, &submit(done, 8, 4, 5, 0))?;
    show_call(rt, "step of worker 8", &done, &step(done, 8))?;
    show_call(rt, "step of an idle worker", &done, &step(done, 0))
}

pub fn show(rt: &impl Print) -> io::Result<()> {
    show_rows(rt)?;
    show_workers(rt)?;
    show_numbers(rt)?;
    let marking = at_line(helping(HelpLine::TryMark3 { right: 3 }), 8);
    let full = with_worker(flagged(), 0, marking);
    show_call(rt, "step to a ninth help", &full, &step(full, 0))
}
