// A plan against a table: its check, and the step list where it is accepted.
#![tactic(auto)]

ghost use Rattle.std.specs.Prelude.{◌≡◌, ◌≤◌, length, Ok};
ghost use Rattle.rules.specs.Limits.{most_bound, most_plan_bytes};
ghost use Rattle.rules.specs.Plans.{lines_of};
ghost use Rattle.rules.specs.Checks.{verdict_of, check_lines};
ghost use Rattle.rules.specs.Refusals.{steps_for, written};
ghost use Rattle.words.specs.Words.{table_of};
ghost use Rattle.run.specs.Runs.{Few};
ghost use Rattle.step_list.specs.RowSteps.{StepsHeld};
ghost use Rattle.checker.specs.Notes.{Noted};
ghost use Rattle.plan.specs.NoteBytes.{note_bytes};

use basics::Refusal;
use rows::Rows;
use rules::Tally;
use words::Words;

// No plan has more operators.
const MOST_NOTES: usize = rules::limits::MOST_PLAN_BYTES / lines::SHORTEST_LINE;

// An accepted plan's step list, from its notes, where there is room for it.
fn hand_out(words: Words, form: u64, rows: Rows, notes: &[u16], tally: Tally, steps: &mut [u8])
    requires held { StepsHeld form (table_of words.all.now) rows.ops.now rows.cells.now }
    requires few { Few (Ok tally) × Noted form (table_of words.all.now) notes.now tally.operators tally.steps }
    ensures { steps.new ≡ written steps.old 0 (note_bytes form (table_of words.entry.all.now) notes.now tally.operators (length steps.old)) }
{
    if (steps.len() as u64) < 2 * tally.steps {
        return;
    }
    let noted = &notes[..tally.operators as usize];
    step_list::put_all(words, form, rows, noted, steps);
}

// The verdict, and the step list from the start of the bytes on where the plan is accepted and there is room for it.
pub fn judge(
    words: Words,
    bound: u64,
    form: u64,
    text: &[u8],
    steps: &mut [u8],
) -> Result<Tally, Refusal>
    requires { (1 ≤ bound) × (bound ≤ most_bound) × (length text.now ≤ most_plan_bytes) }
    ensures few { Few result × (verdict_of result ≡ check_lines bound form (table_of words.entry.all.now) (lines_of text.now)) }
    ensures steps_after { steps.new ≡ written steps.old 0 (steps_for bound form (table_of words.entry.all.now) text.now (length steps.old)) }
{
    let mut ops = [0u64; rows::ALL_WORDS];
    let mut cells = [0u16; rows::ALL_CELLS];
    let mut notes = [0u16; MOST_NOTES];
    rows::prepare(words, bound, form, &mut ops, &mut cells);
    let rows = Rows {
        ops: &ops,
        cells: &cells,
    };
    let tally = checker::check(words, bound, form, rows, text, &mut notes)?;
    hand_out(words, form, rows, &notes, tally, steps);
    Ok(tally)
}
