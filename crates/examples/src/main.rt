// The examples, run: records from standard input, what the proved calls say of each to standard output. A record is the letter of its
// kind, its length in two bytes, low first, and so many bytes.
#![tactic(auto)]

use std::io;

mod programs;

// Room for all records.
const MOST_RECORDS: usize = 2 * 256 * 256;

fn main(rt: HostRuntime) -> io::Result<()> {
    let mut all = [0u8; MOST_RECORDS];
    let input = report::read(&mut rt.stdin(), &mut all)?;
    run_all(&rt, input.of(&all))
}

fn run_all<P: Print>(printer: &P, all: &[u8]) -> io::Result<()> {
    let mut rest = all;
    while let Some((kind, record)) = rest.split_first() {
        let size = report::two_bytes(report::byte(record, 0), report::byte(record, 1));
        let (_, body) = report::split(record, 2);
        let (input, next) = report::split(body, size);
        show(printer, *kind, input)?;
        rest = next;
    }
    Ok(())
}

// c, e, f: an input of the checking program, of the emitting program, of the finding program; k, x, y: of the checking program too; g,
// l, n, r, s: see there; t: a title, which is said as it is.
fn show<P: Print>(printer: &P, kind: u8, input: &[u8]) -> io::Result<()> {
    match kind {
        b'c' => programs::check(printer, input),
        b'e' => programs::emit(printer, input),
        b'f' => programs::find(printer, input),
        b'g' => calling::search(printer, input),
        b'k' => calling::check(printer, input),
        b'l' => calling::least(printer, input),
        b'n' => calling::sections(printer, input),
        b'r' => calling::section_in(printer, input),
        b's' => calling::section(printer, input),
        b't' => printer.write_all(input),
        b'x' => calling::expand(printer, input, 0),
        _ => calling::expand(printer, input, 1),
    }
}
