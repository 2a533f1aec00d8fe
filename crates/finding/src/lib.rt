// The finding program's work on its input: finding the parts, and writing the text of the plan found, or the refusal as one line.
#![tactic(auto)]

ghost use Rattle.std.specs.Prelude.{ℕ, ◌≤◌, ◌≡◌, List, length, take, drop};
ghost use Rattle.rules.specs.Refusals.{text_found, written};
ghost use Rattle.rules.specs.Programs.{bound_in, form_in, limit_in, budget_in, find_input, find_output};
ghost use Rattle.sought.specs.Findings.{most_found_bytes};
ghost use Rattle.replies.specs.Findings.{found_of, figures};
ghost use Rattle.text.specs.Appends.{Appends};
ghost use Rattle.report.specs.Inputs.{most_find_input, count_of, ReadFrom};
ghost use Rattle.report.specs.Parts.{next_of, size_of};

use basics::Refusal;
use replies::Found;
use report::{Input, Part};
use rules::limits::MOST_TABLE_BYTES;
use std::io;

// What is read of the input, with the name that specs/Inputs of `report` has for it.
pub const MOST_INPUT: usize = 8 + MOST_TABLE_BYTES + 1;

// Room for the text of any plan found. The contracts say it by the name of specs/Findings of `sought`.
const MOST_FOUND_BYTES: usize = 2560;

// What is asked: a plan for a table, under a bound and a form and within the limits of the search.
#[derive(Clone, Copy)]
pub struct Asked<'a> {
    pub bound: u64,
    pub form: u64,
    pub limit: u64,
    pub budget: u64,
    pub table: &'a [u8],
}

impl<'a> Asked<'a> {
    // The parts of an input: bound, form, the limit in two bytes, the budget in four, low first, and all behind them the table.
    pub fn read(input: &'a [u8]) -> Asked<'a>
        ensures numbers { (result.bound ≡ bound_in input.now) × (result.form ≡ form_in input.now) }
        ensures limits { (result.limit ≡ limit_in input.now) × (result.budget ≡ budget_in input.now) }
        ensures table { result.table.now ≡ drop 8 input.now }
    {
        let limit = report::two_bytes(report::byte(input, 2), report::byte(input, 3));
        let budget = u32::from_le_bytes([
            report::byte(input, 4),
            report::byte(input, 5),
            report::byte(input, 6),
            report::byte(input, 7),
        ]);
        let (_, table) = report::split(input, 8);
        Asked {
            bound: report::byte(input, 0) as u64,
            form: report::byte(input, 1) as u64,
            limit: limit as u64,
            budget: budget as u64,
            table,
        }
    }
}

// What the program does with what it has read into the buffer.
pub fn answer<P: Print>(printer: &P, buffer: &[u8], input: Input) -> io::Result<()>
    requires { (most_find_input ≤ length buffer.now) × (count_of input ≤ length buffer.now) }
{
    let mut out = [0u8; MOST_FOUND_BYTES];
    let part = put_part(buffer, input, &mut out);
    part.send(printer, &out)?;
    Ok(())
}

// All that is written of the input from which the buffer was filled, as one part.
fn put_part(buffer: &[u8], input: Input, out: &mut [u8]) -> Part
    requires { (most_find_input ≤ length buffer.now) × (count_of input ≤ length buffer.now) × (most_found_bytes ≤ length out.old) }
    ensures any_input { (s : List ℕ) → ReadFrom s buffer.now input → take (size_of result) out.new ≡ find_output s }
    ensures result_value { (next_of result ≡ 1) × (size_of result ≤ length out.new) × (length out.new ≡ length out.old) }
{
    let size = put_text(input.of(buffer), out);
    report::part_of(1, size)
}

// The text of the plan found, or the line of the refusal.
fn put_text(input: &[u8], out: &mut [u8]) -> usize
    requires { most_found_bytes ≤ length out.old }
    ensures appends { Appends out.old 0 (find_output input.now) out.new result }
    ensures upper_bound { result ≤ most_found_bytes }
{
    match find(input, out) {
        Ok(found) => found.bytes as usize,
        Err(refusal) => report::refused(out, refusal),
    }
}

// What the search comes to, and the text of the plan found.
fn find(input: &[u8], out: &mut [u8]) -> Result<Found, Refusal>
    requires { most_found_bytes ≤ length out.old }
    ensures result_value { found_of result ≡ figures (find_input input.now) }
    ensures out_after { out.new ≡ written out.old 0 (text_found (find_input input.now)) }
{
    let asked = Asked::read(input);
    seeking::write(
        asked.bound,
        asked.form,
        asked.limit,
        asked.budget,
        asked.table,
        out,
    )
}
