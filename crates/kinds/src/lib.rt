// Each kind of section, at the start of the part that is lent where there is room for it; its length. The section is measured
// before the first byte is written.
#![tactic(auto)]

ghost use Rattle.std.specs.Prelude.{ℕ, List, ◌+◌, ◌*◌, ◌≤◌, ◌<◌};
ghost use Rattle.basics.specs.Texts.{bytes};
ghost use Rattle.version3.specs.Spelling.{preamble, middle};
ghost use Rattle.rules.specs.Limits.{most_bound};
ghost use Rattle.rules.specs.Tables.{action_count, method_count};
ghost use Rattle.rules.specs.Operators.{positions};
ghost use Rattle.rules.specs.Problems.{variable_count, problem_of};
ghost use Rattle.laws.specs.Steps.{step_at, variable_text};
ghost use Rattle.words.specs.Words.{table_of};
ghost use Rattle.text.specs.Puts.{farthest};
ghost use Rattle.template.specs.Views.{shown};
ghost use Rattle.step_text.specs.Operators.{operator_text_at};
ghost use Rattle.kinds.specs.Fits.{Fits, Writes};

use template::{Drawn, MOST_NUMBERS, NO_NUMBER, TEMPLATE_BYTES, Template};
use words::Words;

// What the writer puts, where there is room for it; its length.
fn fit<F: Fn(&mut [u8]) -> usize>(part: &mut [u8], put: F) -> usize
    requires { F.IsAlwaysCallable put }
    ensures { (x : List ℕ) → Writes (F.post put) x → Fits part.old x part.new result }
{
    let mut none = [0u8; 0];
    let size = put(&mut none);
    let short = part.len() < size;
    if short {
        return size;
    }
    put(part)
}

pub fn put_preamble(words: Words, bound: u64, part: &mut [u8]) -> usize
    requires { bound ≤ most_bound }
    ensures { Fits part.old (preamble (variable_count bound (table_of words.entry.all.now))) part.new result }
{
    fit(part, |out| variables::put_preamble(words, bound, out, 0))
}

pub fn put_variable(words: Words, bound: u64, v: u64, part: &mut [u8]) -> usize
    requires { (bound ≤ most_bound) × (v < variable_count bound (table_of words.all.now)) }
    ensures { Fits part.old (variable_text bound (table_of words.entry.all.now) v) part.new result }
{
    fit(part, |out| variables::put_variable(words, bound, v, out, 0))
}

pub fn put_middle(words: Words, bound: u64, form: u64, part: &mut [u8]) -> usize
    requires { bound ≤ most_bound }
    ensures { Fits part.old (middle (problem_of bound form (table_of words.entry.all.now))) part.new result }
{
    fit(part, |out| middle::put_middle(words, bound, form, out, 0))
}

// What is drawn of a template, at the position p.
fn put_drawn(drawn: Drawn, p: usize, part: &mut [u8]) -> usize
    requires { (p < most_bound) × (drawn.at + 3 * drawn.count ≤ farthest) }
    ensures { Fits part.old (shown drawn.entry p) part.new result }
{
    fit(part, |out| drawn.put_exactly(out, 0, p))
}

// The operator of step i at the position p + 1, composed once.
pub fn put_operator(
    words: Words,
    bound: u64,
    form: u64,
    i: usize,
    p: usize,
    part: &mut [u8],
) -> usize
    requires held { (bound ≤ most_bound) × (i < action_count (table_of words.all.now) + method_count (table_of words.all.now)) }
    requires p_bound { p < positions bound form (table_of words.all.now) (step_at (table_of words.all.now) i) }
    ensures { Fits part.old (operator_text_at form (table_of words.entry.all.now) i p) part.new result }
{
    let mut text = [0u8; TEMPLATE_BYTES];
    let mut numbers = [NO_NUMBER; MOST_NUMBERS];
    let mut template = Template::over(&mut text, &mut numbers);
    step_text::compose_step(&mut template, words, bound, form, i);
    put_drawn(template.drawn(), p, part)
}

pub fn put_last(part: &mut [u8]) -> usize
    ensures { Fits part.old (bytes "0\n") part.new result }
{
    fit(part, |out| text::put(out, 0, b"0\n"))
}
