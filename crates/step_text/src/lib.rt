// The operators of one step as text: their template, composed once, and all of them at the positions that they exist at.
#![tactic(auto)]

ghost use Rattle.std.specs.Prelude.{ℕ, ◌≡◌, ◌+◌, ◌*◌, ◌≤◌, ◌<◌, length};
ghost use Rattle.rules.specs.Limits.{most_bound};
ghost use Rattle.rules.specs.Tables.{fact_count, task_count, action_count, method_count};
ghost use Rattle.laws.specs.Steps.{step_text};
ghost use Rattle.words.specs.Words.{table_of};
ghost use Rattle.text.specs.Appends.{Appends};
ghost use Rattle.template.specs.Sizes.{margin, most_numbers, figure_count, operator_bytes, template_bytes, step_text_bytes};
ghost use Rattle.template.specs.Figures.{Figures};
ghost use Rattle.template.specs.Templates.{Stands, Keeps, rendered};
ghost use Rattle.rows.specs.Rows.{row_at};
ghost use Rattle.compose.specs.RowTexts.{Fit};
ghost use Rattle.step_text.specs.Operators.{Names, row_text_at, IsComposed};

use rows::{Rows, row};
use template::{MOST_NUMBERS, NO_NUMBER, TEMPLATE_BYTES, Template};
use words::Words;

// The letter and the number of a step's name, as compose::compose takes them.
#[derive(Clone, Copy)]
struct Label {
    letter: u8,
    number: u64,
}

fn label_of(words: Words, i: usize) -> Label
    ensures { Names (table_of words.entry.all.now) i result }
{
    let actions = words.action_count() as usize;
    if i < actions {
        return Label {
            letter: b'a',
            number: i as u64,
        };
    }
    let k = i - actions;
    Label {
        letter: b'm',
        number: k as u64,
    }
}

// The template of the operators of step i, from its row.
fn compose_row(t: &mut Template<'_>, words: Words, i: usize, rows: Rows)
    requires held { Fit (fact_count (table_of words.all.now)) (task_count (table_of words.all.now)) i rows.ops.now rows.cells.now }
    requires room { (template_bytes ≤ length t.old.text.now) × (most_numbers ≤ length t.old.numbers.now) }
    ensures stands { Stands t.new }
    ensures text { (p : ℕ) → rendered t.new p ≡ row_text_at (table_of words.entry.all.now) i (row_at rows.entry.ops.now rows.entry.cells.now 0) p }
    ensures upper_bound { t.new.at + 3 * t.new.count ≤ operator_bytes }
    ensures memory { Keeps t.old t.new }
{
    let top = words.fact_count();
    let free = words.task_count();
    let label = label_of(words, i);
    compose::compose(t, top, free, label.letter, label.number, rows);
}

// The template of the operators of step i; at how many positions it has one.
pub fn compose_step(t: &mut Template<'_>, words: Words, bound: u64, form: u64, i: usize) -> usize
    requires held { (bound ≤ most_bound) × (i < action_count (table_of words.all.now) + method_count (table_of words.all.now)) }
    requires room { (template_bytes ≤ length t.old.text.now) × (most_numbers ≤ length t.old.numbers.now) }
    ensures composed { IsComposed bound form (table_of words.entry.all.now) i t.new result }
    ensures memory { Keeps t.old t.new }
{
    let mut ops = [0u64; row::WORDS];
    let mut cells = [0u16; row::CELLS];
    rows::one_row(words, bound, form, i, &mut ops, &mut cells);
    let rows = Rows {
        ops: &ops,
        cells: &cells,
    };
    compose_row(t, words, i, rows);
    rows.last(0) as usize
}

// The operators of step i at every position that they exist at, rising.
pub fn put_operators(
    words: Words,
    bound: u64,
    form: u64,
    i: usize,
    figures: &[u8],
    out: &mut [u8],
    at: usize,
) -> usize
    requires held { (bound ≤ most_bound) × (i < action_count (table_of words.all.now) + method_count (table_of words.all.now)) }
    requires figures { Figures figures.now figure_count × (at + step_text_bytes + margin ≤ length out.old) }
    ensures appends { Appends out.old at (step_text bound form (table_of words.entry.all.now) i) out.new result }
    ensures upper_bound { result ≤ at + step_text_bytes }
{
    let mut text = [0u8; TEMPLATE_BYTES];
    let mut numbers = [NO_NUMBER; MOST_NUMBERS];
    let mut template = Template::over(&mut text, &mut numbers);
    let count = compose_step(&mut template, words, bound, form, i);
    template.drawn().put_positions(out, at, figures, count)
}
