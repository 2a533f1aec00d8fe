// A run: how it begins, and what it does with one operator, by its prepared row.
#![tactic(auto)]

ghost use Rattle.std.specs.Prelude.{ℕ, ◌≡◌, ◌<◌, ◌≤◌, length, IfOk, OnErr};
ghost use Rattle.rules.specs.Limits.{most_actions, most_methods, most_bound};
ghost use Rattle.laws.specs.Steps.{step_of, operator_of};
ghost use Rattle.words.specs.Words.{table_of};
ghost use Rattle.rows.specs.Sizes.{stack_cells};
ghost use Rattle.rows.specs.Rows.{row_at, RowOk};
ghost use Rattle.run.specs.Steps.{start_point, step_row, document_step};
ghost use Rattle.run.specs.Runs.{most_operators, ProgressOk, Landed, point_of, turned_of, applied_of, run_point, stepped_of, SameRun};
ghost use Rattle.run.specs.Ready.{Ready, row_index, RowOf};
ghost use Rattle.run.specs.Kinds.{kind_step};

use facts::Set;
use rows::{Rows, row};
use rules::{Kind, Operator, Reason};
use words::Words;

// What a run counts, its stack apart.
#[derive(Clone, Copy)]
pub struct Progress {
    pub facts: Set,
    pub height: usize,
    pub operators: u64,
    pub steps: u64,
    pub cost: u64,
}

impl Progress {
    // What the operator of row `index` makes of the numbers: `below` tasks stand under those that it leaves.
    fn landed(self, below: usize, rows: Rows, index: usize) -> Progress
        requires { ProgressOk self × (self.operators < most_operators) × RowOk rows.ops.now rows.cells.now index × (below ≤ most_bound) }
        ensures { Landed self below (row_at rows.entry.ops.now rows.entry.cells.now index) result }
    {
        let adds = rows.adds(index);
        let dels = rows.dels(index);
        let facts = facts::changed(dels, adds, self.facts);
        Progress {
            facts,
            height: below + rows.left(index),
            operators: self.operators + 1,
            steps: self.steps + rows.steps(index),
            cost: self.cost + rows.cost(index),
        }
    }
}

// The operator of row `index` at a position, on a run whose stack is lent. A refused one leaves the stack as it was.
pub fn turn(
    t: Progress,
    stack: &mut [u16; row::STACK],
    rows: Rows,
    index: usize,
    pos: u64,
) -> Result<Progress, Reason>
    requires stack_len { (length stack.old ≡ stack_cells) × ProgressOk t }
    requires few_operators { t.operators < most_operators }
    requires row_ok { RowOk rows.ops.now rows.cells.now index }
    ensures stack_after { turned_of t result stack.new ≡ step_row (row_at rows.entry.ops.now rows.entry.cells.now index) pos (point_of t stack.old) }
    ensures sized { (length stack.new ≡ stack_cells) × IfOk result ProgressOk }
    ensures stack_kept { OnErr result (stack.new ≡ stack.old) }
{
    if pos < 1 {
        return Err(Reason::NotEmitted);
    }
    let last = rows.last(index);
    let above = last < pos;
    if above {
        return Err(Reason::NotEmitted);
    }
    let height = t.height;
    let elsewhere = pos != height as u64;
    if elsewhere {
        return Err(Reason::NotApplicable);
    }
    let below = height - 1;
    let top = u64::from(stack[below]);
    let task = rows.task(index);
    let other = top != task;
    if other {
        return Err(Reason::NotApplicable);
    }
    let needs = rows.needs(index);
    if !facts::holds(needs, t.facts) {
        return Err(Reason::NotApplicable);
    }
    rows.push(stack, below, index);
    Ok(t.landed(below, rows, index))
}

// The kind that a number stands for, so that an operator told by numbers can be run: 0 is an action, any other a method.
pub fn kind_of(kind: u64) -> Kind
    ensures { (k : ℕ) → step_of result k ≡ kind_step kind k }
{
    match kind {
        0 => Kind::Action,
        _ => Kind::Method,
    }
}

// The row of an operator, where there is such an action or method: actions first, then methods.
pub fn row_index(kind: Kind, number: u64, actions: u64, methods: u64) -> Option<usize>
    requires { (actions ≤ most_actions) × (methods ≤ most_methods) }
    ensures { result ≡ row_index kind number actions methods }
{
    match kind {
        Kind::Action if number < actions => Some(number as usize),
        Kind::Method if number < methods => Some((actions + number) as usize),
        _ => None,
    }
}

// What an operator that is applied comes to, and its row.
#[derive(Clone, Copy)]
pub struct Applied {
    pub row: usize,
    pub progress: Progress,
}

// An operator on the run, from all rows of its table. A refused one leaves the stack as it was.
pub fn operate(
    words: Words,
    bound: u64,
    form: u64,
    rows: Rows,
    t: Progress,
    stack: &mut [u16; row::STACK],
    operator: Operator,
) -> Result<Applied, Reason>
    requires ready { Ready bound form words.all.now rows.ops.now rows.cells.now }
    requires stack_len { (length stack.old ≡ stack_cells) × ProgressOk t }
    requires few_operators { t.operators < most_operators }
    ensures stack_after { applied_of t result stack.new ≡ document_step bound form (table_of words.entry.all.now) (operator_of operator) (point_of t stack.old) }
    ensures sized { (length stack.new ≡ stack_cells) × IfOk result (λ a. ProgressOk a.progress) }
    ensures stack_kept { OnErr result (stack.new ≡ stack.old) }
    ensures row_of { IfOk result (λ a. RowOf (table_of words.entry.all.now) (step_of operator.kind operator.number) a.row) }
{
    let actions = words.action_count();
    let methods = words.method_count() as u64;
    let Some(row) = row_index(operator.kind, operator.number, actions, methods) else {
        return Err(Reason::NotEmitted);
    };
    let progress = turn(t, stack, rows, row, operator.position)?;
    Ok(Applied { row, progress })
}

// Before the first operator: the starting task alone on the stack.
pub fn begin(words: Words, stack: &mut [u16; row::STACK]) -> Progress
    requires { length stack.old ≡ stack_cells }
    ensures stack_after { point_of result stack.new ≡ start_point (table_of words.entry.all.now) }
    ensures stack_len { (length stack.new ≡ stack_cells) × ProgressOk result }
{
    stack[0] = words.start_task() as u16;
    Progress {
        facts: words.start_facts(),
        height: 1,
        operators: 0,
        steps: 0,
        cost: 0,
    }
}

// A run by value.
#[derive(Clone, Copy)]
pub struct Run {
    pub bound: u64,
    pub form: u64,
    pub progress: Progress,
    pub stack: [u16; row::STACK],
}

// The operator of row `index` at a position, on a run by value.
pub fn step(run: Run, rows: Rows, index: usize, pos: u64) -> Result<Run, Reason>
    requires progress_ok { ProgressOk run.progress }
    requires few_operators { run.progress.operators < most_operators }
    requires row_ok { RowOk rows.ops.now rows.cells.now index }
    ensures result_value { stepped_of run result ≡ step_row (row_at rows.entry.ops.now rows.entry.cells.now index) pos (run_point run) }
    ensures bound_value { IfOk result (λ r. SameRun run r × ProgressOk r.progress) }
{
    let mut stack = run.stack;
    let progress = turn(run.progress, &mut stack, rows, index, pos)?;
    Ok(Run {
        progress,
        stack,
        ..run
    })
}
