// The emitting program's work on its input: the whole problem as text, part by part, or one line that says the refusal.
#![tactic(auto)]

ghost use Rattle.std.specs.Prelude.{◌≡◌, List, ℕ, ◌≤◌, ◌<◌, length};
ghost use Rattle.rules.specs.Programs.{emit_output};
ghost use Rattle.words.specs.Words.{table_words, table_of};
ghost use Rattle.template.specs.Sizes.{figure_bytes};
ghost use Rattle.report.specs.Inputs.{most_emit_input, count_of, ReadFrom};
ghost use Rattle.report.specs.Parts.{Moves, Says};
ghost use Rattle.parts.specs.Sizes.{part_bytes};
ghost use Rattle.emission.specs.Jobs.{piece_of, piece_count, TableHeld, Stands, Does};

use basics::Refusal;
use report::{Input, Part};
use std::io;
use template::FIGURE_BYTES;
use words::Words;

// What is read of the input, with the name that specs/Inputs of `report` has for it.
pub const MOST_INPUT: usize = 2 + rules::limits::MOST_TABLE_BYTES + 1;

// The problem that is written, of the table in the words.
#[derive(Clone, Copy)]
struct Problem {
    bound: u64,
    form: u64,
}

// What there is to write: a problem, or a refusal's line.
type Job = Result<Problem, Refusal>;

// What the program does with what it has read into the buffer.
pub fn answer<P: Print>(printer: &P, buffer: &[u8], input: Input) -> io::Result<()>
    requires { (most_emit_input ≤ length buffer.now) × (count_of input ≤ length buffer.now) }
{
    let mut words = [0u64; words::SIZE];
    let mut figures = [0u8; FIGURE_BYTES];
    let job = open_read(buffer, input, &mut words, &mut figures);
    let mut out = parts::space();
    send_parts(printer, job, &words, &figures, &mut out)
}

// Each part is sent as it is handed over.
fn send_parts<P: Print>(
    printer: &P,
    job: Job,
    words: &[u64],
    figures: &[u8],
    out: &mut [u8],
) -> io::Result<()>
    requires { Stands job words.now figures.now × (part_bytes ≤ length out.old) }
{
    let parts = piece_count(job, words);
    let mut next = 0;
    // No index is counted: each part says which piece comes after it.
    while next < parts {
        let part = put_part(job, words, figures, next, out);
        next = part.send(printer, out)?;
    }
    Ok(())
}

// The job of the input from which the buffer was filled.
fn open_read(buffer: &[u8], input: Input, words: &mut [u64], figures: &mut [u8]) -> Job
    requires most_emit_input_in_bounds { (most_emit_input ≤ length buffer.now) × (count_of input ≤ length buffer.now) }
    requires table_words_in_bounds { (table_words ≤ length words.old) × (figure_bytes ≤ length figures.old) }
    ensures any_input { (s : List ℕ) → ReadFrom s buffer.now input → Does (emit_output s) result words.new figures.new }
    ensures stands { Stands result words.new figures.new }
{
    open(input.of(buffer), words, figures)
}

// The first byte is the bound, the second the form, and all behind them the table.
fn open(input: &[u8], words: &mut [u64], figures: &mut [u8]) -> Job
    requires { (table_words ≤ length words.old) × (figure_bytes ≤ length figures.old) }
    ensures { Does (emit_output input.now) result words.new figures.new }
{
    let bound = report::byte(input, 0) as u64;
    let form = report::byte(input, 1) as u64;
    let (_, table) = report::split(input, 2);
    opening::open(bound, form, Ok(()), table, Ok(()), words)?;
    template::fill_figures(figures);
    Ok(Problem { bound, form })
}

fn piece_count(job: Job, words: &[u64]) -> usize
    requires { TableHeld job words.now }
    ensures { result ≡ piece_count job (table_of words.now) }
{
    match job {
        Ok(_) => parts::step_count(Words { all: words }) + 2,
        Err(_) => 1,
    }
}

// The next part of what is written.
fn put_part(job: Job, words: &[u64], figures: &[u8], next: usize, out: &mut [u8]) -> Part
    requires { Stands job words.now figures.now × (part_bytes ≤ length out.old) × (next < piece_count job (table_of words.now)) }
    ensures says { Says (piece_of job (table_of words.now)) next out.new result }
    ensures moves { Moves (piece_count job (table_of words.now)) next out.new result }
    ensures out_len_unchanged { length out.new ≡ length out.old }
{
    match job {
        Ok(problem) => {
            let words = Words { all: words };
            parts::put_problem(words, problem.bound, problem.form, figures, next, out)
        }
        Err(refusal) => {
            let size = report::refused(out, refusal);
            report::part_of(1, size)
        }
    }
}
