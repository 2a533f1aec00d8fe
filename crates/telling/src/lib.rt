// What a call says, as text.
#![tactic(auto)]

use basics::Refusal;
use std::fmt::{InlineText, Write};
use std::io;

// The line that the programs write of a refusal.
pub fn refusal<P: Print>(printer: &P, refusal: Refusal) -> io::Result<()> {
    let mut line = [0u8; report::LINE_ROOM];
    let size = report::refused(&mut line, refusal);
    printer.write_all(&line[..size])
}

// A space and a number, in text of no more than its size: `print!` clears a kilobyte for each, a quarter of a long step list's time.
fn spaced<P: Print>(printer: &P, n: u64) -> io::Result<()> {
    let mut word = InlineText::<24>::new();
    let _fits = write!(word, " {n}");
    printer.write_all(word.as_str().as_bytes())
}

// The refusal, or the value under its name, as one line.
pub fn answer<P: Print>(printer: &P, name: &[u8], reply: Result<u64, Refusal>) -> io::Result<()> {
    match reply {
        Ok(value) => {
            printer.write_all(name)?;
            println!(printer; " {value}")
        }
        Err(refused) => refusal(printer, refused),
    }
}

// A name and numbers, as one line.
pub fn numbers<P: Print>(printer: &P, name: &[u8], numbers: &[u64]) -> io::Result<()> {
    printer.write_all(name)?;
    for n in numbers {
        spaced(printer, *n)?;
    }
    println!(printer)
}

// A step list, two bytes a step, low first, as one line. A byte that the last step lacks reads as 0.
pub fn steps<P: Print>(printer: &P, bytes: &[u8]) -> io::Result<()> {
    print!(printer; "steps")?;
    for step in bytes.chunks(2) {
        let word = report::two_bytes(report::byte(step, 0), report::byte(step, 1));
        spaced(printer, word as u64)?;
    }
    println!(printer)
}
