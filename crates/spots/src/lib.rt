// Where a walk over prepared rows stands, and how it goes from there: on by a row, and back.
#![tactic(auto)]

ghost use Rattle.std.specs.Prelude.{◌≡◌, List, ℕ, ◌+◌, ◌-◌, ◌≤◌, ◌<◌, length, set};
ghost use Rattle.rules.specs.Limits.{most_bound, most_tasks};
ghost use Rattle.rules.specs.Searches.{complete};
ghost use Rattle.words.specs.Words.{table_of};
ghost use Rattle.rows.specs.Sizes.{stack_cells};
ghost use Rattle.rows.specs.Rows.{row_at, RowsFit, RowOk};
ghost use Rattle.links.specs.Links.{row_of, some_row};
ghost use Rattle.spots.specs.Spots.{state_in, top_row, mark_of, Begins, Tries, Returned};

use facts::Set;
use links::{Links, NextRow};
use rows::{Rows, row};
use rules::limits;
use trail::Mark;
use words::Words;

// Where a walk stands: its facts, and the height of its stack.
#[derive(Clone, Copy)]
pub struct Spot {
    pub facts: Set,
    pub height: usize,
}

impl Spot {
    // The mark of a row's operator that is applied here.
    pub fn marked(self, row: usize) -> Mark
        ensures { result ≡ mark_of row self }
    {
        Mark {
            row,
            position: self.height,
            facts: self.facts,
        }
    }

    // Whether the stack is empty, and the goal among the facts.
    pub fn is_complete(self, words: Words) -> bool
        ensures { (cells : List ℕ) → result ≡ complete (table_of words.entry.all.now) (state_in self cells) }
    {
        if self.height != 0 {
            return false;
        }
        let facts = self.facts;
        facts::holds(words.goal_facts(), facts)
    }
}

// Where the walk begins.
pub fn start(words: Words, stack: &mut [u16; row::STACK]) -> Spot
    requires { length stack.old ≡ stack_cells }
    ensures { Begins (table_of words.entry.all.now) stack.new result }
{
    let run = run::begin(words, stack);
    Spot {
        facts: run.facts,
        height: run.height,
    }
}

// The first row of the task on top, where `rest` operators more are allowed.
pub fn top_row(links: &Links, stack: &[u16; row::STACK], height: usize, rest: usize) -> NextRow
    requires { (length stack.now ≡ stack_cells) × (height ≤ most_bound) }
    ensures { row_of result ≡ some_row (top_row links.now stack.now height rest) }
{
    if rest == 0 {
        return NextRow::none();
    }
    if height == 0 {
        return NextRow::none();
    }
    let task = stack[height - 1] as usize;
    if limits::MOST_TASKS as usize <= task {
        return NextRow::none();
    }
    links.first(task)
}

// The operator of a row whose task is on top: where it is applied, the spot after it.
pub fn try_row(at: Spot, index: usize, stack: &mut [u16; row::STACK], rows: Rows) -> Option<Spot>
    requires { (length stack.old ≡ stack_cells) × (1 ≤ at.height) × (at.height ≤ most_bound) × RowOk rows.ops.now rows.cells.now index }
    ensures { Tries (row_at rows.entry.ops.now rows.entry.cells.now index) at stack.old stack.new result }
{
    let height = at.height;
    let last = rows.last(index);
    if last < height as u64 {
        return None;
    }
    let old = at.facts;
    let needs = rows.needs(index);
    if !facts::holds(needs, old) {
        return None;
    }
    let below = height - 1;
    rows.push(stack, below, index);
    let adds = rows.adds(index);
    let dels = rows.dels(index);
    let facts = facts::changed(dels, adds, old);
    let high = below + rows.left(index);
    Some(Spot {
        facts,
        height: high,
    })
}

// An operator takes one task off the stack and writes from there upwards, so the task put back makes the stack what it was.
pub fn put_back(height: usize, row: usize, rows: Rows, stack: &mut [u16; row::STACK])
    requires height_bound { (length stack.old ≡ stack_cells) × (1 ≤ height) × (height ≤ most_bound) }
    requires rows_fit { RowsFit (row + 1) rows.ops.now rows.cells.now × ((row_at rows.ops.now rows.cells.now row).task < most_tasks) }
    ensures { stack.new ≡ set stack.old (height - 1) (row_at rows.entry.ops.now rows.entry.cells.now row).task }
{
    let task = rows.task(row);
    stack[height - 1] = task as u16;
}

// Back where an operator was applied.
pub fn back(mark: Mark, rows: Rows, stack: &mut [u16; row::STACK]) -> Spot
    requires height_bound { (length stack.old ≡ stack_cells) × (1 ≤ mark.position) × (mark.position ≤ most_bound) }
    requires rows_fit { RowsFit (mark.row + 1) rows.ops.now rows.cells.now × ((row_at rows.ops.now rows.cells.now mark.row).task < most_tasks) }
    ensures { Returned mark (row_at rows.entry.ops.now rows.entry.cells.now mark.row).task stack.old stack.new result }
{
    put_back(mark.position, mark.row, rows, stack);
    Spot {
        facts: mark.facts,
        height: mark.position,
    }
}
