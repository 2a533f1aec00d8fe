// The text of the operators on a trail, a line each. Lent no bytes, it is measured.
#![tactic(auto)]

ghost use Rattle.std.specs.Prelude.{◌++◌, ◌+◌, ◌*◌, ◌≤◌, length};
ghost use Rattle.basics.specs.Texts.{bytes, ThreeDigits};
ghost use Rattle.rules.specs.Limits.{most_limit};
ghost use Rattle.rules.specs.Problems.{name_of};
ghost use Rattle.rules.specs.Plans.{texts_of};
ghost use Rattle.laws.specs.Steps.{step_at};
ghost use Rattle.theorems.specs.Shapes.{step_number, Small, AllSmall};
ghost use Rattle.words.specs.Words.{table_of};
ghost use Rattle.trail.specs.Trails.{operator_marked, marked};
ghost use Rattle.text.specs.Puts.{Puts, farthest};
ghost use Rattle.plan_text.specs.PlanLines.{line_text, name_bytes, line_bytes};

use trail::Mark;
use words::Words;

// A bracket and the name of a row's step.
fn put_name(words: Words, row: usize, out: &mut [u8], at: usize) -> usize
    requires { ThreeDigits (step_number (step_at (table_of words.all.now) row)) × (at + name_bytes ≤ farthest) }
    ensures puts { Puts out.old at (bytes "(" ++ name_of (step_at (table_of words.entry.all.now) row)) out.new result }
    ensures upper_bound { result ≤ at + name_bytes }
{
    let number = row as u64;
    let actions = words.action_count();
    if number < actions {
        return text::put_field(out, at, b"(a", number);
    }
    text::put_field(out, at, b"(m", number - actions)
}

// The line of an operator.
fn put_operator(words: Words, mark: Mark, out: &mut [u8], at: usize) -> usize
    requires { Small (operator_marked (table_of words.all.now) mark) × (at + line_bytes ≤ farthest) }
    ensures puts { Puts out.old at (line_text (operator_marked (table_of words.entry.all.now) mark)) out.new result }
    ensures upper_bound { result ≤ at + line_bytes }
{
    let name = put_name(words, mark.row, out, at);
    let end = text::put_field(out, name, b" ", mark.position as u64);
    text::put(out, end, b")\n")
}

// Those of all operators that are marked.
pub fn put_plan(words: Words, marks: &[Mark], out: &mut [u8]) -> usize
    requires { (length marks.now ≤ most_limit) × AllSmall (marked (table_of words.all.now) marks.now) }
    ensures puts { Puts out.old 0 (texts_of (marked (table_of words.entry.all.now) marks.now)) out.new result }
    ensures upper_bound { result ≤ line_bytes * length marks.now }
{
    let mut at: usize = 0;
    for mark in marks {
        at = put_operator(words, *mark, out, at);
    }
    at
}
