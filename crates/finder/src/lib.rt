// A search of an opened table: its rows, linked, the walk over them, and the text of the plan found.
#![tactic(auto)]

ghost use Rattle.std.specs.Prelude.{◌≡◌, ◌≤◌, Ok, length};
ghost use Rattle.std.proofs.Math.Option.{some};
ghost use Rattle.basics.specs.Answers.{after};
ghost use Rattle.rules.specs.Limits.{most_bound, most_limit, most_budget};
ghost use Rattle.rules.specs.Refusals.{plan_of, room_for_plan, sought_in, text_found, written};
ghost use Rattle.theorems.specs.Shapes.{AllSmall};
ghost use Rattle.words.specs.Words.{table_of};
ghost use Rattle.trail.specs.Trails.{marked};
ghost use Rattle.replies.specs.Findings.{found_of, figures};

use basics::Refusal;
use replies::Found;
use rows::Rows;
use trail::Mark;
use words::Words;

// The text of the plan that some marks are, from the start of the bytes on where there is room for it.
fn hand_out(words: Words, marks: &[Mark], applied: u64, text: &mut [u8]) -> Found
    requires { (length marks.now ≤ most_limit) × AllSmall (marked (table_of words.all.now) marks.now) }
    ensures result_value { found_of (Ok result) ≡ figures (plan_of (some (marked (table_of words.entry.all.now) marks.now)) applied) }
    ensures text_after { text.new ≡ written text.old 0 (text_found (after (plan_of (some (marked (table_of words.entry.all.now) marks.now)) applied) (room_for_plan (length text.old)))) }
{
    let bytes = plan_text::put_plan(words, marks, &mut []);
    let fits = bytes <= text.len();
    if fits {
        plan_text::put_plan(words, marks, text);
    }
    Found {
        bytes: bytes as u64,
        applied,
    }
}

// What the search comes to, and the text of the plan found from the start of the bytes on where there is room for it.
pub fn seek(
    words: Words,
    bound: u64,
    form: u64,
    limit: usize,
    budget: u64,
    text: &mut [u8],
) -> Result<Found, Refusal>
    requires { (1 ≤ bound) × (bound ≤ most_bound) × (limit ≤ most_limit) × (budget ≤ most_budget) }
    ensures result_value { found_of result ≡ figures (sought_in bound form (table_of words.entry.all.now) limit budget) }
    ensures text_after { text.new ≡ written text.old 0 (text_found (after (sought_in bound form (table_of words.entry.all.now) limit budget) (room_for_plan (length text.old)))) }
{
    let mut ops = [0u64; rows::ALL_WORDS];
    let mut cells = [0u16; rows::ALL_CELLS];
    let mut trail = [trail::unmarked(); trail::MARKS];
    rows::prepare(words, bound, form, &mut ops, &mut cells);
    let rows = Rows {
        ops: &ops,
        cells: &cells,
    };
    let links = links::link(words, bound, form, rows);
    let plan = search::search(words, bound, form, rows, &links, limit, budget, &mut trail)?;
    Ok(hand_out(words, &trail[..plan.count], plan.applied, text))
}
