// The text of a whole problem, part by part: the sections before the operators, the operators of each step, the last section.
#![tactic(auto)]

ghost use Rattle.std.specs.Prelude.{◌≡◌, ◌+◌, ◌≤◌, ◌<◌, length};
ghost use Rattle.basics.specs.Lists.{upto};
ghost use Rattle.rules.specs.Limits.{most_bound, most_actions, most_methods};
ghost use Rattle.rules.specs.Problems.{variable_count};
ghost use Rattle.laws.specs.Steps.{variable_text, front_text};
ghost use Rattle.words.specs.Words.{table_of};
ghost use Rattle.text.specs.Appends.{Appends};
ghost use Rattle.report.specs.Parts.{Moves, Says};
ghost use Rattle.parts.specs.Pieces.{step_count, problem_piece, Ready};
ghost use Rattle.parts.specs.Sizes.{variables_bytes, front_bytes, step_space, part_bytes};

use report::Part;
use words::Words;

// Sizes, with the names that specs/Sizes has for them.
const STEP_SPACE: usize = template::STEP_TEXT_BYTES + template::MARGIN;

const PART_BYTES: usize = 256 * rules::limits::MOST_SECTION_BYTES;

// Room for all that stands before the operators, and then for the operators of five steps.
pub fn space() -> [u8; PART_BYTES]
    ensures { part_bytes ≡ length result }
{
    [0; PART_BYTES]
}

// The next part.
pub fn put_problem(
    words: Words,
    bound: u64,
    form: u64,
    figures: &[u8],
    next: usize,
    out: &mut [u8],
) -> Part
    requires { Ready bound words.all.now figures.now × (part_bytes ≤ length out.old) × (next < step_count (table_of words.all.now) + 2) }
    ensures says { Says (problem_piece bound form (table_of words.entry.all.now)) next out.new result }
    ensures moves { Moves (step_count (table_of words.entry.all.now) + 2) next out.new result }
    ensures out_len_unchanged { length out.new ≡ length out.old }
{
    if next == 0 {
        let size = put_front(words, bound, form, out);
        return report::part_of(1, size);
    }
    let steps = step_count(words);
    if next <= steps {
        return fill(words, bound, form, figures, next, out);
    }
    let size = text::put(out, 0, b"0\n");
    report::part_of(steps + 2, size)
}

pub fn step_count(words: Words) -> usize
    ensures value { result ≡ step_count (table_of words.entry.all.now) }
    ensures upper_bound { result ≤ most_actions + most_methods }
{
    words.action_count() as usize + words.method_count()
}

fn put_variables(words: Words, bound: u64, out: &mut [u8], at: usize) -> usize
    requires { (bound ≤ most_bound) × (at + variables_bytes ≤ length out.old) }
    ensures appends { Appends out.old at (upto (variable_text bound (table_of words.entry.all.now)) (variable_count bound (table_of words.entry.all.now))) out.new result }
    ensures upper_bound { result ≤ at + variables_bytes }
{
    let variables = problem::variable_count(words, bound);
    let mut next = at;
    for v in 0..variables {
        next = variables::put_variable(words, bound, v, out, next);
    }
    next
}

// The sections before the operators.
fn put_front(words: Words, bound: u64, form: u64, out: &mut [u8]) -> usize
    requires { (bound ≤ most_bound) × (front_bytes ≤ length out.old) }
    ensures appends { Appends out.old 0 (front_text bound form (table_of words.entry.all.now)) out.new result }
    ensures upper_bound { result ≤ front_bytes }
{
    let first = variables::put_preamble(words, bound, out, 0);
    let next = put_variables(words, bound, out, first);
    middle::put_middle(words, bound, form, out, next)
}

// The operators from a piece on, of as many steps as there is room for.
fn fill(words: Words, bound: u64, form: u64, figures: &[u8], from: usize, out: &mut [u8]) -> Part
    requires { Ready bound words.all.now figures.now × (step_space ≤ length out.old) × (1 ≤ from) × (from ≤ step_count (table_of words.all.now)) }
    ensures says { Says (problem_piece bound form (table_of words.entry.all.now)) from out.new result }
    ensures moves { Moves (step_count (table_of words.entry.all.now) + 1) from out.new result }
    ensures out_len_unchanged { length out.new ≡ length out.old }
{
    let steps = step_count(words);
    let room = out.len() - STEP_SPACE;
    let mut size = 0;
    for next in from..steps + 1 {
        if room < size {
            return report::part_of(next, size);
        }
        size = step_text::put_operators(words, bound, form, next - 1, figures, out, size);
    }
    report::part_of(steps + 1, size)
}
