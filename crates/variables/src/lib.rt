// The sections before the middle one: the preamble, and one for each variable.
#![tactic(auto)]

ghost use Rattle.std.specs.Prelude.{◌+◌, ◌≤◌, ◌<◌, length};
ghost use Rattle.basics.specs.Lists.{upto};
ghost use Rattle.basics.specs.Texts.{ThreeDigits};
ghost use Rattle.version3.specs.Spelling.{preamble, spell_variable};
ghost use Rattle.rules.specs.Limits.{most_facts, most_tasks, most_bound, most_section_bytes};
ghost use Rattle.rules.specs.Problems.{variable_count, fact_names, height_names};
ghost use Rattle.laws.specs.Steps.{variable_text};
ghost use Rattle.words.specs.Words.{table_of};
ghost use Rattle.text.specs.Puts.{Puts, farthest};
ghost use Rattle.variables.specs.Variables.{labelled, variable_head, variable, position_names, head_bytes, names_bytes};

use words::Words;

// Text, a number of at most three digits, a line feed.
pub fn put_line(out: &mut [u8], at: usize, s: &[u8], n: u64) -> usize
    requires { (at + length s.now + 4 ≤ farthest) × ThreeDigits n }
    ensures puts { Puts out.old at (labelled s.now n) out.new result }
    ensures upper_bound { result ≤ at + length s.now + 4 }
{
    let next = text::put_field(out, at, s, n);
    text::put(out, next, b"\n")
}

// Version, metric, and how many variables there are.
pub fn put_preamble(words: Words, bound: u64, out: &mut [u8], at: usize) -> usize
    requires { (bound ≤ most_bound) × (at + most_section_bytes ≤ farthest) }
    ensures puts { Puts out.old at (preamble (variable_count bound (table_of words.entry.all.now))) out.new result }
    ensures upper_bound { result ≤ at + most_section_bytes }
{
    let count = problem::variable_count(words, bound);
    put_line(
        out,
        at,
        b"begin_version\n3\nend_version\nbegin_metric\n1\nend_metric\n",
        count,
    )
}

// A variable's section as far as its count of values.
fn put_head(out: &mut [u8], at: usize, v: u64, values: u64) -> usize
    requires { (at + head_bytes ≤ farthest) × ThreeDigits v × ThreeDigits values }
    ensures puts { Puts out.old at (variable_head v values) out.new result }
    ensures upper_bound { result ≤ at + head_bytes }
{
    let next = put_line(out, at, b"begin_variable\nvar", v);
    put_line(out, next, b"-1\n", values)
}

// The names that one text and the numbers below n give.
fn put_names(out: &mut [u8], at: usize, s: &[u8], n: u64) -> usize
    requires { (at + names_bytes ≤ farthest) × (length s.now ≤ 3) × (n ≤ most_tasks) }
    ensures puts { Puts out.old at (upto (labelled s.now) n) out.new result }
    ensures upper_bound { result ≤ at + names_bytes }
{
    let mut next = at;
    for k in 0..n {
        next = put_line(out, next, s, k);
    }
    next
}

// Fact v: it holds, it doesn't.
fn put_fact_variable(out: &mut [u8], at: usize, v: u64) -> usize
    requires { (at + most_section_bytes ≤ farthest) × (v < most_facts) }
    ensures puts { Puts out.old at (spell_variable (variable v (fact_names v))) out.new result }
    ensures upper_bound { result ≤ at + most_section_bytes }
{
    let holds = put_head(out, at, v, 2);
    let fails = put_line(out, holds, b"Atom f", v);
    let end = put_line(out, fails, b"NegatedAtom f", v);
    text::put(out, end, b"end_variable\n")
}

// The top of the stack, a height for each value.
fn put_top_variable(out: &mut [u8], at: usize, v: u64, bound: u64) -> usize
    requires { (at + most_section_bytes ≤ farthest) × ThreeDigits v × (bound ≤ most_bound) }
    ensures puts { Puts out.old at (spell_variable (variable v (height_names bound))) out.new result }
    ensures upper_bound { result ≤ at + most_section_bytes }
{
    let heights = bound + 1;
    let names = put_head(out, at, v, heights);
    let end = put_names(out, names, b"top", heights);
    text::put(out, end, b"end_variable\n")
}

// A position of the stack, a task for each value and one more for none.
fn put_position_variable(out: &mut [u8], at: usize, v: u64, tasks: u64) -> usize
    requires { (at + most_section_bytes ≤ farthest) × ThreeDigits v × (tasks ≤ most_tasks) }
    ensures puts { Puts out.old at (spell_variable (variable v (position_names tasks))) out.new result }
    ensures upper_bound { result ≤ at + most_section_bytes }
{
    let names = put_head(out, at, v, tasks + 1);
    let end = put_names(out, names, b"t", tasks);
    text::put(out, end, b"none\nend_variable\n")
}

// Variable v: a fact, the top of the stack, or a position.
pub fn put_variable(words: Words, bound: u64, v: u64, out: &mut [u8], at: usize) -> usize
    requires { (bound ≤ most_bound) × (at + most_section_bytes ≤ farthest) × (v < variable_count bound (table_of words.all.now)) }
    ensures puts { Puts out.old at (variable_text bound (table_of words.entry.all.now) v) out.new result }
    ensures upper_bound { result ≤ at + most_section_bytes }
{
    let facts = words.fact_count();
    if v < facts {
        return put_fact_variable(out, at, v);
    }
    if v == facts {
        return put_top_variable(out, at, v, bound);
    }
    put_position_variable(out, at, v, words.task_count())
}
