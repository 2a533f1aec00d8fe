// The lines of the stack in an operator's template: the top, the place of the task, and the places above it.
#![tactic(auto)]

ghost use Rattle.std.specs.Prelude.{◌≤◌, ◌<◌};
ghost use Rattle.basics.specs.Texts.{ThreeDigits};
ghost use Rattle.rules.specs.Limits.{most_facts, most_subtasks};
ghost use Rattle.drawing.specs.Draws.{Room, Draws};
ghost use Rattle.stack_lines.specs.StackLines.{top_stays, task_stays, top_moves, task_moves, push_one, above, Left};

use rows::{Rows, row};
use template::Template;

// Four writers, since each has its own words.

// The top, where one task is left and it stays.
pub fn top_stays(t: &mut Template<'_>, top: u64, stay: u64)
    requires { Room (top_stays top stay) t.old × (top ≤ most_facts) }
    ensures { Draws (top_stays top stay) t.old t.new }
{
    if stay != 1 {
        return;
    }
    drawing::field(t, b"", top);
    drawing::moving_line(t, b" ", 1);
}

// The place of the task, where the same task is left there.
pub fn task_stays(t: &mut Template<'_>, top: u64, task: u64, bottom: u64)
    requires { Room (task_stays top task bottom) t.old × (top ≤ most_facts) × ThreeDigits task }
    ensures { Draws (task_stays top task bottom) t.old t.new }
{
    if bottom != task {
        return;
    }
    drawing::moving(t, b"", top as usize + 1);
    drawing::field_line(t, b" ", task);
}

// The top, where it moves: none is left, or more than one.
pub fn top_moves(t: &mut Template<'_>, top: u64, stay: u64)
    requires { Room (top_moves top stay) t.old × (top ≤ most_facts) × (stay ≤ most_subtasks) }
    ensures { Draws (top_moves top stay) t.old t.new }
{
    if stay == 1 {
        return;
    }
    drawing::field(t, b"0 ", top);
    drawing::moving(t, b" ", 1);
    drawing::moving_line(t, b" ", stay as usize);
}

// The place of the task, where another is left there, or none.
pub fn task_moves(t: &mut Template<'_>, top: u64, task: u64, bottom: u64)
    requires { Room (task_moves top task bottom) t.old × (top ≤ most_facts) × ThreeDigits task × ThreeDigits bottom }
    ensures { Draws (task_moves top task bottom) t.old t.new }
{
    if bottom == task {
        return;
    }
    drawing::moving(t, b"0 ", top as usize + 1);
    drawing::field(t, b" ", task);
    drawing::field_line(t, b" ", bottom);
}

// A task that is left, j + 1 places above.
fn push(t: &mut Template<'_>, top: u64, j: usize, task: u64)
    requires { Room (push_one top j task) t.old × (top ≤ most_facts) × (j < most_subtasks) × ThreeDigits task }
    ensures { Draws (push_one top j task) t.old t.new }
{
    drawing::moving(t, b"0 ", top as usize + j + 2);
    drawing::field_line(t, b" -1 ", task);
}

// The places above: the tasks that the row leaves there, but the last.
pub fn pushes(t: &mut Template<'_>, top: u64, rows: Rows)
    requires { Room (above top rows.ops.now rows.cells.now) t.old × (top ≤ most_facts) × Left rows.ops.now rows.cells.now }
    ensures { Draws (above top rows.entry.ops.now rows.entry.cells.now) t.old t.new }
{
    let stay = rows.left(0);
    for h in 1..stay {
        let task = rows.left_at(0, h);
        push(t, top, h - 1, task);
    }
}
