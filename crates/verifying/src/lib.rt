// The checking program's work on its input: finding the parts, and writing the verdict as one line.
#![tactic(auto)]

ghost use Rattle.std.specs.Prelude.{ℕ, ◌≤◌, ◌≡◌, List, length, take, drop};
ghost use Rattle.rules.specs.Checks.{verdict_of};
ghost use Rattle.rules.specs.Programs.{bound_in, form_in, size_in, check_input, check_output};
ghost use Rattle.text.specs.Appends.{Appends};
ghost use Rattle.report.specs.Reports.{line_room};
ghost use Rattle.report.specs.Inputs.{most_size, most_check_input, count_of, ReadFrom};
ghost use Rattle.report.specs.Parts.{next_of, size_of};

use basics::Refusal;
use report::{Input, Part};
use rules::Tally;
use rules::limits::{MOST_PLAN_BYTES, MOST_TABLE_BYTES};
use std::io;

// What is read of the input, with the name that specs/Inputs of `report` has for it.
pub const MOST_INPUT: usize = 4 + MOST_TABLE_BYTES + MOST_PLAN_BYTES + 1;

// What is asked: whether a plan is accepted against a table, under a bound and a form.
#[derive(Clone, Copy)]
pub struct Asked<'a> {
    pub bound: u64,
    pub form: u64,
    pub table: &'a [u8],
    pub plan: &'a [u8],
}

impl<'a> Asked<'a> {
    // The parts of an input: bound, form, the table's length in two bytes, low first, the table, and all behind it the plan.
    pub fn read(input: &'a [u8]) -> Asked<'a>
        ensures numbers { (result.bound ≡ bound_in input.now) × (result.form ≡ form_in input.now) }
        ensures table { result.table.now ≡ take (size_in input.now) (drop 4 input.now) }
        ensures plan { result.plan.now ≡ drop (size_in input.now) (drop 4 input.now) }
        ensures size { size_in input.now ≤ most_size }
    {
        let size = report::two_bytes(report::byte(input, 2), report::byte(input, 3));
        let (_, rest) = report::split(input, 4);
        let (table, plan) = report::split(rest, size);
        Asked {
            bound: report::byte(input, 0) as u64,
            form: report::byte(input, 1) as u64,
            table,
            plan,
        }
    }
}

// What the program does with what it has read into the buffer. `finding` has the like, over another input and another text.
pub fn answer<P: Print>(printer: &P, buffer: &[u8], input: Input) -> io::Result<()>
    requires { (most_check_input ≤ length buffer.now) × (count_of input ≤ length buffer.now) }
{
    let mut out = [0u8; report::LINE_ROOM];
    let part = put_part(buffer, input, &mut out);
    part.send(printer, &out)?;
    Ok(())
}

// All that is written of the input from which the buffer was filled, as one part.
fn put_part(buffer: &[u8], input: Input, out: &mut [u8]) -> Part
    requires { (most_check_input ≤ length buffer.now) × (count_of input ≤ length buffer.now) × (line_room ≤ length out.old) }
    ensures any_input { (s : List ℕ) → ReadFrom s buffer.now input → take (size_of result) out.new ≡ check_output s }
    ensures result_value { (next_of result ≡ 1) × (size_of result ≤ length out.new) × (length out.new ≡ length out.old) }
{
    let size = put_line(input.of(buffer), out);
    report::part_of(1, size)
}

// The line that says what the check of the input comes to.
fn put_line(input: &[u8], out: &mut [u8]) -> usize
    requires { line_room ≤ length out.old }
    ensures appends { Appends out.old 0 (check_output input.now) out.new result }
    ensures upper_bound { (result ≤ line_room) × (size_in input.now ≤ most_size) }
{
    match decide(input) {
        Ok(tally) => report::accepted(out, tally),
        Err(refusal) => report::refused(out, refusal),
    }
}

fn decide(input: &[u8]) -> Result<Tally, Refusal>
    ensures { (verdict_of result ≡ check_input input.now) × (size_in input.now ≤ most_size) }
{
    let asked = Asked::read(input);
    judging::verdict(asked.bound, asked.form, asked.table, asked.plan)
}
