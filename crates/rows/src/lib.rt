// The operators of a table, prepared once as rows.
#![tactic(auto)]

pub mod row;

ghost use Rattle.std.specs.Prelude.{◌≡◌, map, ℕ, ◌+◌, ◌*◌, ◌≤◌, ◌<◌, length, drop};
ghost use Rattle.rules.specs.Limits.{most_bound, most_subtasks};
ghost use Rattle.rules.specs.Tables.{action_count, method_count, method};
ghost use Rattle.rules.specs.Progression.{act, mth, prefix, total_cost};
ghost use Rattle.laws.specs.Steps.{step_at};
ghost use Rattle.facts.specs.Sets.{join_read};
ghost use Rattle.words.specs.Words.{table_of};
ghost use Rattle.rows.specs.Sizes.{most_rows, row_words, row_cells, all_words, all_cells};
ghost use Rattle.rows.specs.Rows.{row_of, row_at, RowsFit, Prepared};
ghost use Rattle.rows.specs.Stores.{ActionsPrepared, AllPrepared, Stored, SetsStored, Ended, RestStored};

use facts::{Action, Join};
pub use row::Rows;
use words::Words;

// A row for each action and each method, and the words and cells that all of them take.
pub const MOST: usize = rules::limits::MOST_ACTIONS as usize + rules::limits::MOST_METHODS as usize;

pub const ALL_WORDS: usize = MOST * row::WORDS;

pub const ALL_CELLS: usize = MOST * row::CELLS;

// What stands in a row's cells after its tasks.
#[derive(Clone, Copy)]
struct Tail {
    task: u16,
    left: u16,
    steps: u16,
    last: u16,
}

// The cells after those of the tasks, in the row that begins at cell c.
fn put_tail(cells: &mut [u16], c: usize, tail: Tail)
    requires { c + row_cells ≤ length cells.old }
    ensures { Ended c tail.task tail.left tail.steps tail.last cells.old cells.new }
{
    cells[c + row::TASK_CELL] = tail.task;
    cells[c + row::LEFT_CELL] = tail.left;
    cells[c + row::STEPS_CELL] = tail.steps;
    cells[c + row::LAST_CELL] = tail.last;
}

// The words of row i.
fn put_sets(ops: &mut [u64], i: usize, join: Join, cost: u64)
    requires { row_words * (i + 1) ≤ length ops.old }
    ensures { SetsStored i (join_read join) cost ops.old ops.new }
{
    let sets = Action {
        needs: join.needs,
        adds: join.adds,
        dels: join.dels,
        cost,
    };
    words::put_action(ops, row::WORDS * i, sets);
}

// The subtasks of method k from p on in the cells from c on, the last first.
fn put_rest(words: Words, k: usize, p: usize, cells: &mut [u16], c: usize)
    requires { (k < method_count (table_of words.all.now)) × (p ≤ length (method (table_of words.all.now) k).subs) × (c + most_subtasks ≤ length cells.old) }
    ensures { RestStored c (drop p (method (table_of words.entry.all.now) k).subs) cells.old cells.new }
{
    let n = words.width_of(k);
    let left = n - p;
    for h in 0..left {
        let i = n - (h + 1);
        cells[c + h] = words.subtask(k, i) as u16;
    }
}

// What the first n subtasks of method k cost, which are its prefix.
fn prefix_cost(words: Words, form: u64, k: usize, n: usize) -> u64
    requires { (k < method_count (table_of words.all.now)) × (n ≡ length (prefix form (table_of words.all.now) k)) }
    ensures { result ≡ total_cost (table_of words.entry.all.now) (map act (prefix form (table_of words.entry.all.now) k)) }
{
    let mut cost: u64 = 0;
    for j in 0..n {
        let task = words.subtask(k, j);
        let a = words.action_at(task);
        cost += a.cost;
    }
    cost
}

// Action k as row i, in both forms.
fn action_row(words: Words, bound: u64, k: usize, i: usize, ops: &mut [u64], cells: &mut [u16])
    requires { (bound ≤ most_bound) × (k < action_count (table_of words.all.now)) × (i < most_rows) × RowsFit (i + 1) ops.old cells.old }
    ensures { (f : ℕ) → Stored i (row_of bound f (table_of words.entry.all.now) (act k)) ops.old cells.old ops.new cells.new }
{
    let a = words.action_at(k);
    let join = facts::join_one(facts::no_join(), a);
    put_sets(ops, i, join, a.cost);
    let tail = Tail {
        task: k as u16,
        left: 0,
        steps: 1,
        last: bound as u16,
    };
    put_tail(cells, row::CELLS * i, tail);
}

// Method k as row i.
fn method_row(
    words: Words,
    bound: u64,
    form: u64,
    k: usize,
    i: usize,
    ops: &mut [u64],
    cells: &mut [u16],
)
    requires { (bound ≤ most_bound) × (k < method_count (table_of words.all.now)) × (i < most_rows) × RowsFit (i + 1) ops.old cells.old }
    ensures { Stored i (row_of bound form (table_of words.entry.all.now) (mth k)) ops.old cells.old ops.new cells.new }
{
    let prefix = operators::prefix_of(words, form, k);
    let join = prefix.join;
    let cost = prefix_cost(words, form, k, prefix.count);
    put_sets(ops, i, join, cost);
    put_rest(words, k, prefix.count, cells, row::CELLS * i);
    let task = words.head_of(k);
    let left = words.width_of(k) - prefix.count;
    let steps = prefix.count + 1;
    let last = operators::highest_position(join.dead, bound, left as u64);
    let tail = Tail {
        task: task as u16,
        left: left as u16,
        steps: steps as u16,
        last: last as u16,
    };
    put_tail(cells, row::CELLS * i, tail);
}

// The rows of the actions.
fn action_rows(words: Words, bound: u64, ops: &mut [u64], cells: &mut [u16])
    requires { (bound ≤ most_bound) × RowsFit most_rows ops.old cells.old }
    ensures { (f : ℕ) → ActionsPrepared bound f (table_of words.entry.all.now) ops.new cells.new }
{
    let n = words.action_count() as usize;
    for k in 0..n {
        action_row(words, bound, k, k, ops, cells);
    }
}

// The rows of the methods, after those of the actions.
fn method_rows(words: Words, bound: u64, form: u64, ops: &mut [u64], cells: &mut [u16])
    requires { (bound ≤ most_bound) × RowsFit most_rows ops.old cells.old × ActionsPrepared bound form (table_of words.all.now) ops.old cells.old }
    ensures { AllPrepared bound form (table_of words.entry.all.now) ops.new cells.new }
{
    let first = words.action_count() as usize;
    let n = words.method_count();
    for k in 0..n {
        method_row(words, bound, form, k, first + k, ops, cells);
    }
}

// Step i alone, as row 0.
pub fn one_row(words: Words, bound: u64, form: u64, i: usize, ops: &mut [u64], cells: &mut [u16])
    requires { (bound ≤ most_bound) × (i < action_count (table_of words.all.now) + method_count (table_of words.all.now)) × RowsFit 1 ops.old cells.old }
    ensures cells_after { row_at ops.new cells.new 0 ≡ row_of bound form (table_of words.entry.all.now) (step_at (table_of words.entry.all.now) i) }
    ensures ops_len_unchanged { (length ops.new ≡ length ops.old) × (length cells.new ≡ length cells.old) }
{
    let first = words.action_count() as usize;
    if i < first {
        action_row(words, bound, i, 0, ops, cells);
        return;
    }
    method_row(words, bound, form, i - first, 0, ops, cells);
}

// All rows, one after the other.
pub fn prepare(words: Words, bound: u64, form: u64, ops: &mut [u64], cells: &mut [u16])
    requires { (bound ≤ most_bound) × (all_words ≤ length ops.old) × (all_cells ≤ length cells.old) }
    ensures { Prepared bound form (table_of words.entry.all.now) ops.new cells.new }
{
    action_rows(words, bound, ops, cells);
    method_rows(words, bound, form, ops, cells);
}
