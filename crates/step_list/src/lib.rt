// The step list's bytes, from the rows of the operators in turn.
#![tactic(auto)]

ghost use Rattle.std.specs.Prelude.{◌≡◌, [], ◌∷◌, map, ◌+◌, ◌*◌, ◌/◌, ◌%◌, ◌<◌, ◌≤◌, length, take};
ghost use Rattle.std.proofs.lemmas.List.Edits.{sets};
ghost use Rattle.rules.specs.Tables.{method_count, method};
ghost use Rattle.rules.specs.Progression.{act};
ghost use Rattle.rules.specs.Checks.{step_bytes};
ghost use Rattle.words.specs.Words.{table_of};
ghost use Rattle.step_list.specs.RowSteps.{row_bytes, rows_bytes, IsRow, AllRows, StepsHeld, MethodRow};

use rows::{Rows, row};
use rules::limits;
use words::Words;

// One step's word, low byte first.
fn put_word(out: &mut [u8], at: usize, word: u16)
    requires { at + 2 ≤ length out.old }
    ensures { out.new ≡ sets out.old at ((word % 256) ∷ (word / 256) ∷ []) }
{
    let bytes = word.to_le_bytes();
    out[at..at + 2].copy_from_slice(&bytes);
}

// The first p subtasks of method k, which are actions.
fn put_prefix(words: Words, k: usize, p: usize, out: &mut [u8], at: usize)
    requires held { k < method_count (table_of words.all.now) }
    requires p_in_bounds { (p ≤ length (method (table_of words.all.now) k).subs) × (at + 2 * p ≤ length out.old) }
    ensures { out.new ≡ sets out.old at (step_bytes (map act (take p (method (table_of words.entry.all.now) k).subs))) }
{
    for j in 0..p {
        let word = words.subtask(k, j) as u16;
        put_word(out, at + 2 * j, word);
    }
}

// A method's steps, from its row: its own word, then its prefix. The place after them.
fn put_method(
    words: Words,
    form: u64,
    rows: Rows,
    row: usize,
    k: usize,
    out: &mut [u8],
    at: usize,
) -> usize
    requires held { MethodRow form (table_of words.all.now) rows.ops.now rows.cells.now row k }
    requires row_in_bounds { at + length (row_bytes form (table_of words.all.now) row) ≤ length out.old }
    ensures value { result ≡ at + length (row_bytes form (table_of words.entry.all.now) row) }
    ensures out_after { out.new ≡ sets out.old at (row_bytes form (table_of words.entry.all.now) row) }
{
    let word = limits::METHOD_WORDS + k as u64;
    put_word(out, at, word as u16);
    let steps = rows.steps(row) as usize;
    let p = steps - 1;
    put_prefix(words, k, p, out, at + 2);
    at + 2 + 2 * p
}

// The steps of one row's operator, and the place after them.
fn put_steps(words: Words, form: u64, rows: Rows, row: usize, out: &mut [u8], at: usize) -> usize
    requires held { StepsHeld form (table_of words.all.now) rows.ops.now rows.cells.now × IsRow (table_of words.all.now) row }
    requires row_in_bounds { at + length (row_bytes form (table_of words.all.now) row) ≤ length out.old }
    ensures value { result ≡ at + length (row_bytes form (table_of words.entry.all.now) row) }
    ensures out_after { out.new ≡ sets out.old at (row_bytes form (table_of words.entry.all.now) row) }
{
    let actions = words.action_count() as usize;
    if row < actions {
        put_word(out, at, row as u16);
        return at + 2;
    }
    let k = row - actions;
    put_method(words, form, rows, row, k, out, at)
}

// The steps of all rows in turn, from the start of the bytes on.
pub fn put_all(words: Words, form: u64, rows: Rows, noted: &[u16], out: &mut [u8])
    requires held { StepsHeld form (table_of words.all.now) rows.ops.now rows.cells.now × AllRows (table_of words.all.now) noted.now }
    requires rows_in_bounds { length (rows_bytes form (table_of words.all.now) noted.now) ≤ length out.old }
    ensures { out.new ≡ sets out.old 0 (rows_bytes form (table_of words.entry.all.now) noted.now) }
{
    let mut end: usize = 0;
    for &row in noted {
        end = put_steps(words, form, rows, usize::from(row), out, end);
    }
}
