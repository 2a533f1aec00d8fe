// The rows of each task whose operators exist, linked once in the table's order: a walk goes from one to the next, past all others.
#![tactic(auto)]

ghost use Rattle.std.specs.Prelude.{◌≡◌, ◌+◌, ◌<◌, None};
ghost use Rattle.rules.specs.Limits.{most_tasks};
ghost use Rattle.words.specs.Words.{table_of};
ghost use Rattle.rows.specs.Sizes.{most_rows};
ghost use Rattle.run.specs.Ready.{Ready};
ghost use Rattle.links.specs.Links.{row_of, next_in, first_in, some_row, Linked, LinkedTo};

use rows::{Rows, row};
use words::Words;

// The row that a walk is led to, or none. It is kept as a number, of which the number that no row has stands for none, and handed out as
// an Option where it is asked for: so a walk that keeps it from turn to turn compares it once, where it takes the row.
#[derive(Clone, Copy)]
pub struct NextRow {
    number: usize,
}

impl NextRow {
    pub fn none() -> NextRow
        ensures { row_of result ≡ None }
    {
        NextRow { number: rows::MOST }
    }

    pub fn row(self) -> Option<usize>
        ensures { result ≡ row_of self }
    {
        if self.number < rows::MOST {
            Some(self.number)
        } else {
            None
        }
    }
}

// Of each row the next one of its task, and of each task the first. Where there is none stands the number that no row has, which the
// methods hand out as none: an Option in each cell would take twice the memory.
#[derive(Clone, Copy)]
pub struct Links {
    pub next: [u16; rows::MOST],
    pub first: [u16; rules::limits::MOST_TASKS as usize],
}

impl Links {
    pub fn next(&self, row: usize) -> NextRow
        requires { row < most_rows }
        ensures { row_of result ≡ some_row (next_in self.now row) }
    {
        let number = self.next[row] as usize;
        NextRow { number }
    }

    pub fn first(&self, task: usize) -> NextRow
        requires { task < most_tasks }
        ensures { row_of result ≡ some_row (first_in self.now task) }
    {
        let number = self.first[task] as usize;
        NextRow { number }
    }
}

// Puts row i before those of its task. A row whose operator exists at no position would only be tried in vain, so it is left out.
fn link_row(links: &mut Links, words: Words, bound: u64, form: u64, rows: Rows, i: usize)
    requires { Ready bound form words.all.now rows.ops.now rows.cells.now × LinkedTo bound form (table_of words.all.now) links.old (i + 1) }
    ensures { LinkedTo bound form (table_of words.entry.all.now) links.new i }
{
    let last = rows.last(i);
    let nowhere = last < 1;
    if nowhere {
        return;
    }
    let task = rows.task(i) as usize;
    links.next[i] = links.first[task];
    links.first[task] = i as u16;
}

// From the last row to the first, each is put before those of its task.
pub fn link(words: Words, bound: u64, form: u64, rows: Rows) -> Links
    requires { Ready bound form words.all.now rows.ops.now rows.cells.now }
    ensures { Linked bound form (table_of words.entry.all.now) result }
{
    let mut links = Links {
        next: [rows::MOST as u16; rows::MOST],
        first: [rows::MOST as u16; rules::limits::MOST_TASKS as usize],
    };
    let count = words.action_count() as usize + words.method_count();
    for i in (0..count).rev() {
        link_row(&mut links, words, bound, form, rows, i);
    }
    links
}
