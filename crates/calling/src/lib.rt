// The calls for C, by name, each on a record of the examples.
#![tactic(auto)]

ghost use Rattle.std.specs.Prelude.{◌≤◌, length, IfOk};

use basics::Refusal;
use console::checking::{
    ildorzhen_check_cost, ildorzhen_check_number, ildorzhen_check_operators, ildorzhen_check_place,
    ildorzhen_check_steps,
};
use console::expanding::{
    ildorzhen_expand_length, ildorzhen_expand_number, ildorzhen_expand_place,
    ildorzhen_expand_write,
};
use console::least_bound::{ildorzhen_least_bound, ildorzhen_least_number, ildorzhen_least_place};
use console::one_section::{
    ildorzhen_section_length, ildorzhen_section_number, ildorzhen_section_place,
    ildorzhen_section_write,
};
use console::searching::{
    ildorzhen_search_applied, ildorzhen_search_length, ildorzhen_search_number,
    ildorzhen_search_place, ildorzhen_search_write,
};
use console::sections::{
    ildorzhen_sections_count, ildorzhen_sections_number, ildorzhen_sections_place,
};
use std::io;

// What is lent to be written: more than any section or step list of the examples.
const ROOM: usize = 2 * rules::limits::MOST_SECTION_BYTES;

// What the calls for a section ask: the problem of a bound and a form for a table, and which section of it.
#[derive(Clone, Copy)]
struct Asked<'a> {
    bound: u64,
    form: u64,
    table: &'a [u8],
    index: u64,
}

impl<'a> Asked<'a> {
    // Bound, form and index; the table stands behind so many bytes.
    fn read(input: &'a [u8], header: usize) -> Asked<'a> {
        let (_, table) = report::split(input, header);
        Asked {
            bound: report::byte(input, 0) as u64,
            form: report::byte(input, 1) as u64,
            table,
            index: report::byte(input, 2) as u64,
        }
    }
}

// What calls for one answer hand back: its value, or the refusal.
fn answer(number: u64, place: u64, value: u64) -> Result<u64, Refusal> {
    if number != 0 {
        return Err(Refusal { number, place });
    }
    Ok(value)
}

// Bound, form, table: how many sections.
pub fn sections<P: Print>(printer: &P, input: &[u8]) -> io::Result<()> {
    let bound = report::byte(input, 0) as u64;
    let form = report::byte(input, 1) as u64;
    let (_, table) = report::split(input, 2);
    let number = ildorzhen_sections_number(bound, form, table);
    let place = ildorzhen_sections_place(bound, form, table);
    let count = ildorzhen_sections_count(bound, form, table);
    telling::answer(printer, b"sections", answer(number, place, count))
}

// Form, table: its least bound.
pub fn least<P: Print>(printer: &P, input: &[u8]) -> io::Result<()> {
    let form = report::byte(input, 0) as u64;
    let (_, table) = report::split(input, 1);
    let number = ildorzhen_least_number(form, table);
    let place = ildorzhen_least_place(form, table);
    let bound = ildorzhen_least_bound(form, table);
    telling::answer(printer, b"least", answer(number, place, bound))
}

// Bound, form, index, table: that section, written between two lines that stood there before.
pub fn section<P: Print>(printer: &P, input: &[u8]) -> io::Result<()> {
    let mut text = [0u8; ROOM];
    match section_between(Asked::read(input, 3), &mut text) {
        Ok(end) => printer.write_all(&text[..end]),
        Err(refusal) => telling::refusal(printer, refusal),
    }
}

// Where the second line ends.
fn section_between(asked: Asked, text: &mut [u8]) -> Result<usize, Refusal>
    requires { 4096 ≤ length text.old }
    ensures { IfOk result (λ end. end ≤ 4096) }
{
    let Asked {
        bound,
        form,
        table,
        index,
    } = asked;
    let number = ildorzhen_section_number(bound, form, table, index, text, 7);
    // A call reads the whole table: the place is asked of a refusal alone.
    if number != 0 {
        let place = ildorzhen_section_place(bound, form, table, index, text, 7);
        return Err(Refusal { number, place });
    }
    let length = ildorzhen_section_length(bound, form, table, index, text, 7) as usize;
    let after = text::put(text, 0, b"before\n") + length.min(4000);
    let end = text::put(text, after, b"after\n");
    ildorzhen_section_write(bound, form, table, index, text, 7);
    Ok(end)
}

// Bound, form, index, place, room, table: all that the calls for that section hand back, in so many bytes of text.
pub fn section_in<P: Print>(printer: &P, input: &[u8]) -> io::Result<()> {
    let Asked {
        bound,
        form,
        table,
        index,
    } = Asked::read(input, 5);
    let at = report::byte(input, 3) as u64;
    let size = report::byte(input, 4) as usize;
    let mut space = [0u8; ROOM];
    let text = &mut space[..size];
    let number = ildorzhen_section_number(bound, form, table, index, text, at);
    let place = ildorzhen_section_place(bound, form, table, index, text, at);
    let length = ildorzhen_section_length(bound, form, table, index, text, at);
    let written = ildorzhen_section_write(bound, form, table, index, text, at);
    telling::numbers(printer, b"section", &[number, place, length, written])
}

// An input of the checking program: all that the calls for its plan hand back, those of the expansion for four bytes and for many.
pub fn check<P: Print>(printer: &P, input: &[u8]) -> io::Result<()> {
    let asked = verifying::Asked::read(input);
    let verifying::Asked {
        bound,
        form,
        table,
        plan,
    } = asked;
    let number = ildorzhen_check_number(bound, form, table, plan);
    let place = ildorzhen_check_place(bound, form, table, plan);
    let cost = ildorzhen_check_cost(bound, form, table, plan);
    let operators = ildorzhen_check_operators(bound, form, table, plan);
    let steps = ildorzhen_check_steps(bound, form, table, plan);
    telling::numbers(printer, b"check", &[number, place, cost, operators, steps])?;
    let mut space = [0u8; ROOM];
    expand_numbers(printer, asked, &mut space[..4])?;
    expand_numbers(printer, asked, &mut space)
}

fn expand_numbers<P: Print>(
    printer: &P,
    asked: verifying::Asked,
    room: &mut [u8],
) -> io::Result<()> {
    let verifying::Asked {
        bound,
        form,
        table,
        plan,
    } = asked;
    let number = ildorzhen_expand_number(bound, form, table, plan, room);
    let place = ildorzhen_expand_place(bound, form, table, plan, room);
    let length = ildorzhen_expand_length(bound, form, table, plan, room);
    let written = ildorzhen_expand_write(bound, form, table, plan, room);
    telling::numbers(printer, b"expand", &[number, place, length, written])
}

// Its steps, in so many bytes less than they need.
pub fn expand<P: Print>(printer: &P, input: &[u8], less: usize) -> io::Result<()> {
    let asked = verifying::Asked::read(input);
    let verifying::Asked {
        bound,
        form,
        table,
        plan,
    } = asked;
    let mut space = [0u8; ROOM];
    let length = ildorzhen_expand_length(bound, form, table, plan, &space) as usize;
    let size = length.min(ROOM).saturating_sub(less);
    let room = &mut space[..size];
    let number = ildorzhen_expand_number(bound, form, table, plan, room);
    let place = ildorzhen_expand_place(bound, form, table, plan, room);
    let written = ildorzhen_expand_write(bound, form, table, plan, room);
    match answer(number, place, written) {
        Ok(_) => telling::steps(printer, room),
        Err(refusal) => telling::refusal(printer, refusal),
    }
}

// Room in two bytes, then an input of the finding program: all that the calls for the search hand back, in so many bytes of text.
pub fn search<P: Print>(printer: &P, input: &[u8]) -> io::Result<()> {
    let room = report::two_bytes(report::byte(input, 0), report::byte(input, 1));
    let (_, rest) = report::split(input, 2);
    let mut space = [0u8; ROOM];
    let size = room.min(ROOM);
    search_numbers(printer, finding::Asked::read(rest), &mut space[..size])
}

// The text, or nothing, and a line that stood behind it before.
fn search_numbers<P: Print>(printer: &P, asked: finding::Asked, text: &mut [u8]) -> io::Result<()> {
    let finding::Asked {
        bound,
        form,
        limit,
        budget,
        table,
    } = asked;
    let number = ildorzhen_search_number(bound, form, limit, budget, table, text);
    let place = ildorzhen_search_place(bound, form, limit, budget, table, text);
    let applied = ildorzhen_search_applied(bound, form, limit, budget, table, text);
    let length = ildorzhen_search_length(bound, form, limit, budget, table, text);
    let behind = (length as usize).min(4000);
    let end = text::put(text, behind, b"stood behind\n");
    let written = ildorzhen_search_write(bound, form, limit, budget, table, text);
    telling::numbers(
        printer,
        b"search",
        &[number, place, applied, length, written],
    )?;
    let shown = end.min(text.len());
    printer.write_all(&text[..shown])
}
