// The check of a plan: each line's operator on the run, up to the first at fault, and a note of its row.
#![tactic(auto)]

ghost use Rattle.std.specs.Prelude.{◌≡◌, ◌≤◌, length};
ghost use Rattle.rules.specs.Limits.{most_plan_bytes};
ghost use Rattle.rules.specs.Plans.{lines_of};
ghost use Rattle.rules.specs.Checks.{verdict_of, check_lines};
ghost use Rattle.words.specs.Words.{table_of};
ghost use Rattle.run.specs.Runs.{Few};
ghost use Rattle.run.specs.Ready.{Ready};
ghost use Rattle.checker.specs.Notes.{most_notes, NotesHeld, NotesExpand};

use basics::Refusal;
use lines::Line;
use rows::{Rows, row};
use rules::{Reason, Tally};
use words::Words;

pub fn check(
    words: Words,
    bound: u64,
    form: u64,
    rows: Rows,
    text: &[u8],
    notes: &mut [u16],
) -> Result<Tally, Refusal>
    requires { Ready bound form words.all.now rows.ops.now rows.cells.now × (length text.now ≤ most_plan_bytes) × (length notes.old ≡ most_notes) }
    ensures result_value { verdict_of result ≡ check_lines bound form (table_of words.entry.all.now) (lines_of text.now) }
    ensures few { Few result × NotesHeld form (table_of words.entry.all.now) notes.new result }
    ensures notes_expand { NotesExpand form (table_of words.entry.all.now) (lines_of text.now) notes.new result }
{
    let mut stack = [0u16; row::STACK];
    let mut run = run::begin(words, &mut stack);
    let end = line_ends::whole_lines(text);
    let mut at: usize = 0;
    let mut lines: u64 = 0;
    // No index is counted: each line says where the next begins.
    while at < end {
        lines += 1;
        let Some(line) = lines::line_at(text, at) else {
            return Err(Reason::LineShape.at(lines));
        };
        match line {
            Line::Comment(next) => at = next,
            Line::Operator(operator, next) => {
                match run::operate(words, bound, form, rows, run, &mut stack, operator) {
                    Err(reason) => return Err(reason.at(lines)),
                    Ok(applied) => {
                        notes[run.operators as usize] = applied.row as u16;
                        run = applied.progress;
                        at = next;
                    }
                }
            }
        }
    }
    if at < text.len() {
        return Err(Reason::LineShape.at(lines + 1));
    }
    closing::conclude(words, run, lines)
}
