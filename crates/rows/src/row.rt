// One row of an operator in memory: only this crate knows where its parts stand.
ghost use Rattle.std.specs.Prelude.{◌≡◌, ◌*◌, ◌+◌, ◌-◌, ◌≤◌, ◌<◌, length, get_or};
ghost use Rattle.rules.specs.Limits.{most_subtasks};
ghost use Rattle.facts.specs.Sets.{set_words, set_of, set_at};
ghost use Rattle.rows.specs.Sizes.{row_words, row_cells, stack_cells};
ghost use Rattle.rows.specs.Rows.{row_at, RowsFit, RowHeld, Pushed};

use facts::Set;

// The words of a row, its joined sets and what it costs, are those of an action.
pub const WORDS: usize = facts::ACTION_WORDS;

// Its cells: the tasks that it leaves, the last first, then its task, how many it leaves, its steps and its highest position.
pub const CELLS: usize = TASK_CELL + 4;

pub const TASK_CELL: usize = rules::limits::MOST_SUBTASKS as usize;

pub const LEFT_CELL: usize = TASK_CELL + 1;

pub const STEPS_CELL: usize = TASK_CELL + 2;

pub const LAST_CELL: usize = TASK_CELL + 3;

// A run's stack: above the highest bound there is room for the tasks that a row may leave.
pub const STACK: usize = rules::limits::MOST_BOUND as usize + rules::limits::MOST_SUBTASKS as usize;

// The set in a row's words, `at` words after its first.
fn set(ops: &[u64], i: usize, at: usize) -> Set
    requires { (row_words * (i + 1) ≤ length ops.now) × (at + set_words ≤ row_words) }
    ensures { set_of result ≡ set_at ops.now (row_words * i + at) }
{
    facts::get(ops, WORDS * i + at)
}

// The number in a row's cells, `at` cells after its first.
fn cell(cells: &[u16], i: usize, at: usize) -> u16
    requires { (row_cells * (i + 1) ≤ length cells.now) × (at < row_cells) }
    ensures { result ≡ get_or cells.now (row_cells * i + at) 0 }
{
    cells[CELLS * i + at]
}

// All rows of a table, or one: the words of their sets and costs, and their cells.
#[derive(Clone, Copy)]
pub struct Rows<'a> {
    pub ops: &'a [u64],
    pub cells: &'a [u16],
}

impl<'a> Rows<'a> {
    // The facts that it needs, adds and deletes.
    pub fn needs(self, i: usize) -> Set
        requires { RowsFit (i + 1) self.ops.now self.cells.now }
        ensures { set_of result ≡ (row_at self.entry.ops.now self.entry.cells.now i).needs }
    {
        set(self.ops, i, 0)
    }

    pub fn adds(self, i: usize) -> Set
        requires { RowsFit (i + 1) self.ops.now self.cells.now }
        ensures { set_of result ≡ (row_at self.entry.ops.now self.entry.cells.now i).adds }
    {
        set(self.ops, i, facts::WORDS)
    }

    pub fn dels(self, i: usize) -> Set
        requires { RowsFit (i + 1) self.ops.now self.cells.now }
        ensures { set_of result ≡ (row_at self.entry.ops.now self.entry.cells.now i).dels }
    {
        set(self.ops, i, 2 * facts::WORDS)
    }

    pub fn cost(self, i: usize) -> u64
        requires { RowsFit (i + 1) self.ops.now self.cells.now }
        ensures { result ≡ (row_at self.entry.ops.now self.entry.cells.now i).cost }
    {
        self.ops[WORDS * i + 3 * facts::WORDS]
    }

    // The task that it takes off the stack.
    pub fn task(self, i: usize) -> u64
        requires { RowsFit (i + 1) self.ops.now self.cells.now }
        ensures { result ≡ (row_at self.entry.ops.now self.entry.cells.now i).task }
    {
        u64::from(cell(self.cells, i, TASK_CELL))
    }

    // How many steps it stands for.
    pub fn steps(self, i: usize) -> u64
        requires { RowsFit (i + 1) self.ops.now self.cells.now }
        ensures { result ≡ (row_at self.entry.ops.now self.entry.cells.now i).steps }
    {
        u64::from(cell(self.cells, i, STEPS_CELL))
    }

    // Its highest position.
    pub fn last(self, i: usize) -> u64
        requires { RowsFit (i + 1) self.ops.now self.cells.now }
        ensures { result ≡ (row_at self.entry.ops.now self.entry.cells.now i).last }
    {
        u64::from(cell(self.cells, i, LAST_CELL))
    }

    // How many tasks it leaves.
    pub fn left(self, i: usize) -> usize
        requires { RowsFit (i + 1) self.ops.now self.cells.now }
        ensures { result ≡ length (row_at self.entry.ops.now self.entry.cells.now i).rest }
    {
        usize::from(cell(self.cells, i, LEFT_CELL))
    }

    // The one of them that has h others under it.
    pub fn left_at(self, i: usize, h: usize) -> u64
        requires { RowHeld self.ops.now self.cells.now i × (h < length (row_at self.ops.now self.cells.now i).rest) }
        ensures { result ≡ get_or (row_at self.entry.ops.now self.entry.cells.now i).rest (length (row_at self.entry.ops.now self.entry.cells.now i).rest - 1 - h) 0 }
    {
        u64::from(cell(self.cells, i, h))
    }

    // Puts those that it leaves on a stack of which `below` tasks stay. All cells go, since a fixed count is one load and one store.
    pub fn push(self, stack: &mut [u16; STACK], below: usize, i: usize)
        requires { (length stack.old ≡ stack_cells) × (below + most_subtasks ≤ stack_cells) × RowHeld self.ops.now self.cells.now i }
        ensures { Pushed stack.old below (row_at self.entry.ops.now self.entry.cells.now i).rest stack.new }
    {
        let first = CELLS * i;
        for h in 0..TASK_CELL {
            stack[below + h] = self.cells[first + h];
        }
    }
}
