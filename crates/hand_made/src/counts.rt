// Counts over lent rows: of a catalogue's, through `lent::count_of`, and of other numbers of rows than 128.

ghost use Rattle.std.specs.Prelude.{◌≤◌, ◌≡◌, take};
ghost use Rattle.model.specs.Count.{count};

use crate::show::Shown;
use crate::states::{DELETE, added, after, asked, linked, with_row};
use lent::{count, count_of};
use model::{Catalogue, Refusal, Row, Standing, free_row};
use std::io;

// The first n of these rows are lent.
fn count_first(rows: &[Row; 129], n: usize) -> Result<u32, Refusal>
    requires { n ≤ 129 }
    ensures { result ≡ count (take n rows.now) }
{
    count(&rows[..n])
}

fn show_count(rt: &impl Print, name: &str, counted: Result<u32, Refusal>) -> io::Result<()> {
    let verdict = Shown(counted.map(|_| ()));
    let saves = counted.unwrap_or(0);
    println!(rt; "count, {name}: {verdict}, saves {saves}")
}

// Rows made by hand, which no schedule reaches. In three of them the head leads to row 2.
fn show_made(rt: &impl Print) -> io::Result<()> {
    let empty = Catalogue::empty();
    let head = with_row(empty, 0, linked(0, 2));
    let to_itself = with_row(head, 2, linked(5, 2));
    let to_head = with_row(head, 2, linked(5, 0));
    let held = Row {
        standing: Standing::Held(0),
        ..linked(5, 1)
    };
    let far_right = with_row(empty, 5, linked(5, 128));
    let far_back = Row {
        backlink: 128,
        ..free_row()
    };
    show_count(rt, "row 2 leads to itself", count_of(to_itself))?;
    show_count(rt, "row 2 leads to the head", count_of(to_head))?;
    show_count(rt, "row 2 is held", count_of(with_row(head, 2, held)))?;
    show_count(rt, "right of 128 in row 5", count_of(far_right))?;
    let state = with_row(empty, 127, far_back);
    show_count(rt, "backlink of 128 in row 127", count_of(state))
}

// 128 rows with one save, and a free row.
fn show_numbers_of_rows(rt: &impl Print) -> io::Result<()> {
    let mut rows = [free_row(); 129];
    rows[0] = linked(0, 2);
    rows[1] = linked(0, 0);
    rows[2] = linked(5, 1);
    show_count(rt, "no rows", count_first(&rows, 0))?;
    show_count(rt, "127 rows", count_first(&rows, 127))?;
    show_count(rt, "128 rows", count_first(&rows, 128))?;
    show_count(rt, "129 rows", count_first(&rows, 129))
}

pub fn show(rt: &impl Print, p7: Catalogue, p8: Catalogue) -> io::Result<()> {
    let empty = Catalogue::empty();
    let p1 = added(empty, 5, 50);
    let marked = after(asked(added(empty, 10, 100), 0, DELETE, 10, 0), 0, 7);
    show_count(rt, "empty", count_of(empty))?;
    show_count(rt, "after P1", count_of(p1))?;
    show_count(rt, "after P7", count_of(p7))?;
    show_count(rt, "after P8", count_of(p8))?;
    show_count(rt, "after A's 7 steps of P10", count_of(marked))?;
    show_made(rt)?;
    show_numbers_of_rows(rt)
}
