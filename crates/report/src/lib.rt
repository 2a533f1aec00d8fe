// What the programs share: the bytes of their input, the line that they write, from the start of the caller's text, and sending it.
#![tactic(auto)]

ghost use Rattle.std.specs.Prelude.{◌≡◌, ◌∷◌, ◌+◌, ◌*◌, ◌≤◌, length, take, drop, get_or, IfOk, IfSome, OnErr};
ghost use Rattle.basics.specs.Texts.{digits};
ghost use Rattle.rules.specs.Checks.{tally_of};
ghost use Rattle.rules.specs.Programs.{accepted_line, refused_line};
ghost use Rattle.text.specs.Appends.{Appends};
ghost use Rattle.report.specs.Reports.{word_room, line_room};
ghost use Rattle.report.specs.Inputs.{most_size, count_of, ReadFrom};
ghost use Rattle.report.specs.Parts.{next_of, size_of};

use basics::Refusal;
use rules::Tally;
use std::io;
use std::io::Read;

// Room for a line. The contracts say it by the name of specs/Reports.
pub const LINE_ROOM: usize = 80;

// What a program has read: how many bytes. Its field is private, so that a program hands it on as it is.
#[derive(Clone, Copy)]
pub struct Input {
    count: usize,
}

impl Input {
    // The bytes that have been read, of the buffer that they were read into.
    pub fn of<'a>(self, buffer: &'a [u8]) -> &'a [u8]
        requires { count_of self ≤ length buffer.now }
        ensures { result.now ≡ take (count_of self) buffer.now }
    {
        &buffer[..self.count]
    }
}

// A part of what a program writes, at the start of a text: the piece that comes after it, and how many bytes it has. Private as well.
#[derive(Clone, Copy)]
pub struct Part {
    next: usize,
    size: usize,
}

impl Part {
    // Sends the part, from the text that it stands in; what comes after it.
    pub fn send<P: Print>(self, printer: &P, text: &[u8]) -> io::Result<usize>
        requires { size_of self ≤ length text.now }
        ensures { IfOk result (λ next. next ≡ next_of self) }
    {
        printer.write_all(&text[..self.size])?;
        Ok(self.next)
    }
}

// What a reader gives, as much as the buffer holds: the start of its bytes, where they are known. Where a read fails the buffer keeps its length.
pub fn read<R: Read>(reader: &mut R, buffer: &mut [u8]) -> io::Result<Input>
    ensures ok { IfOk result (λ input. count_of input ≤ length buffer.new) }
    ensures read_from { IfOk result (λ input. IfSome (R.remaining reader.old) (λ bytes. ReadFrom bytes buffer.new input)) }
    ensures err { OnErr result (length buffer.new ≡ length buffer.old) }
{
    let mut count = 0;
    // No index is counted: each read says how far it went.
    while count < buffer.len() {
        let more = reader.read(&mut buffer[count..])?;
        if more == 0 {
            break;
        }
        count += more;
    }
    Ok(Input { count })
}

// Other bytes, put into the buffer as they would have been read.
pub fn copied(bytes: &[u8], buffer: &mut [u8]) -> Input
    ensures read_from { ReadFrom bytes.now buffer.new result }
    ensures result_in_bounds { (count_of result ≤ length buffer.new) × (length buffer.new ≡ length buffer.old) }
{
    let count = buffer.len().min(bytes.len());
    buffer[..count].copy_from_slice(&bytes[..count]);
    Input { count }
}

pub fn part_of(next: usize, size: usize) -> Part
    ensures { (next_of result ≡ next) × (size_of result ≡ size) }
{
    Part { next, size }
}

// A byte that the input lacks reads as 0.
pub fn byte(input: &[u8], at: usize) -> u8
    ensures { result ≡ get_or input.now at 0 }
{
    input.get(at).copied().unwrap_or(0)
}

// The first n bytes, or as many as there are, and those behind them.
pub fn split<'a>(input: &'a [u8], n: usize) -> (&'a [u8], &'a [u8])
    ensures front { result.0.now ≡ take n input.now }
    ensures back { result.1.now ≡ drop n input.now }
{
    input.split_at(n.min(input.len()))
}

pub fn two_bytes(low: u8, high: u8) -> usize
    ensures value { result ≡ low + 256 * high }
    ensures upper_bound { result ≤ most_size }
{
    u16::from_le_bytes([low, high]) as usize
}

// A space and a number.
fn put_word(out: &mut [u8], at: usize, n: u64) -> usize
    requires { at + word_room ≤ length out.old }
    ensures appends { Appends out.old at (32 ∷ digits n) out.new result }
    ensures upper_bound { result ≤ at + word_room }
{
    let next = text::put(out, at, b" ");
    text::put_number(out, next, n)
}

// By hand into lent bytes, here and below: there is no heap, and the contracts say each byte.
pub fn accepted(out: &mut [u8], tally: Tally) -> usize
    requires { line_room ≤ length out.old }
    ensures appends { Appends out.old 0 (accepted_line (tally_of tally)) out.new result }
    ensures upper_bound { result ≤ line_room }
{
    let first = text::put(out, 0, b"accepted");
    let second = put_word(out, first, tally.cost);
    let third = put_word(out, second, tally.operators);
    let end = put_word(out, third, tally.steps);
    text::put(out, end, b"\n")
}

pub fn refused(out: &mut [u8], refusal: Refusal) -> usize
    requires { line_room ≤ length out.old }
    ensures appends { Appends out.old 0 (refused_line refusal.number refusal.place) out.new result }
    ensures upper_bound { result ≤ line_room }
{
    let first = text::put(out, 0, b"refused");
    let second = put_word(out, first, refusal.number);
    let end = put_word(out, second, refusal.place);
    text::put(out, end, b"\n")
}
