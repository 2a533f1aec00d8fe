// The section between the variables and the operators: state, goal, and how many operators there are.
#![tactic(auto)]

ghost use Rattle.std.specs.Prelude.{◌≡◌, cond, ◌+◌, ◌≤◌, ◌<◌};
ghost use Rattle.basics.specs.Lists.{upto};
ghost use Rattle.version3.specs.Spelling.{middle};
ghost use Rattle.rules.specs.Limits.{most_facts, most_bound, most_section_bytes};
ghost use Rattle.rules.specs.Tables.{start_facts};
ghost use Rattle.rules.specs.Facts.{has};
ghost use Rattle.rules.specs.Problems.{start_value, problem_of};
ghost use Rattle.words.specs.Words.{table_of};
ghost use Rattle.problem.specs.Sizes.{most_variables};
ghost use Rattle.text.specs.Puts.{Puts, farthest};
ghost use Rattle.middle.specs.Middles.{start_line, state_text, goal_text, values_bytes, state_bytes, goal_bytes};

use listing::Says;
use variables::put_line;
use words::Words;

// 0 where fact v is a start fact, 1 where it is not.
fn start_fact(words: Words, v: u64) -> u64
    requires { v < most_facts }
    ensures { result ≡ cond (has (start_facts (table_of words.entry.all.now)) v) 0 1 }
{
    let init = words.start_facts();
    if facts::has(init, v) { 0 } else { 1 }
}

// What variable v is at the start.
fn start_value(words: Words, v: u64) -> u64
    ensures { result ≡ start_value (table_of words.entry.all.now) v }
{
    let facts = words.fact_count();
    if v < facts {
        return start_fact(words, v);
    }
    if v == facts {
        return 1;
    }
    if v == facts + 1 {
        return words.start_task();
    }
    words.task_count()
}

// The start's line of variable v.
fn put_value(words: Words, v: u64, out: &mut [u8], at: usize) -> usize
    requires { at + 4 ≤ farthest }
    ensures puts { Puts out.old at (start_line (table_of words.entry.all.now) v) out.new result }
    ensures upper_bound { result ≤ at + 4 }
{
    let value = start_value(words, v);
    put_line(out, at, b"", value)
}

// The start's lines of n variables.
fn put_values(words: Words, n: u64, out: &mut [u8], at: usize) -> usize
    requires { (n ≤ most_variables) × (at + values_bytes ≤ farthest) }
    ensures puts { Puts out.old at (upto (start_line (table_of words.entry.all.now)) n) out.new result }
    ensures upper_bound { result ≤ at + values_bytes }
{
    let mut next = at;
    for v in 0..n {
        next = put_value(words, v, out, next);
    }
    next
}

// No mutexes; what each variable is at the start.
fn put_state(words: Words, bound: u64, out: &mut [u8], at: usize) -> usize
    requires { (bound ≤ most_bound) × (at + state_bytes ≤ farthest) }
    ensures puts { Puts out.old at (state_text bound (table_of words.entry.all.now)) out.new result }
    ensures upper_bound { result ≤ at + state_bytes }
{
    let count = problem::variable_count(words, bound);
    let values = text::put(out, at, b"0\nbegin_state\n");
    let end = put_values(words, count, out, values);
    text::put(out, end, b"end_state\n")
}

// The goal facts, then top 0.
fn put_goal(words: Words, out: &mut [u8], at: usize) -> usize
    requires { at + goal_bytes ≤ farthest }
    ensures puts { Puts out.old at (goal_text (table_of words.entry.all.now)) out.new result }
    ensures upper_bound { result ≤ at + goal_bytes }
{
    let facts = words.fact_count();
    let goal = words.goal_facts();
    let count = facts::count(goal) + 1;
    let lines = put_line(out, at, b"begin_goal\n", count);
    let top = listing::put_lines(out, lines, Says::Holds, goal, facts);
    let end = text::put_field(out, top, b"", facts);
    text::put(out, end, b" 0\nend_goal\n")
}

// State, goal, and how many operators there are.
pub fn put_middle(words: Words, bound: u64, form: u64, out: &mut [u8], at: usize) -> usize
    requires { (bound ≤ most_bound) × (at + most_section_bytes ≤ farthest) }
    ensures puts { Puts out.old at (middle (problem_of bound form (table_of words.entry.all.now))) out.new result }
    ensures upper_bound { result ≤ at + most_section_bytes }
{
    let operators = operators::operator_count(words, bound, form);
    let goal = put_state(words, bound, out, at);
    let count = put_goal(words, out, goal);
    let end = text::put_number(out, count, operators);
    text::put(out, end, b"\n")
}
