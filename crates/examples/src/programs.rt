// The programs' work, on an input that is put into a buffer as they would have read it.
ghost use Rattle.std.specs.Prelude.{◌<◌, ◌≤◌, ◌^◌, length};
ghost use Rattle.report.specs.Inputs.{count_of};

use report::Input;
use std::io;

pub fn check<P: Print>(printer: &P, input: &[u8]) -> io::Result<()> {
    run::<{ verifying::MOST_INPUT }, _>(input, |buffer, n| verifying::answer(printer, buffer, n))
}

pub fn emit<P: Print>(printer: &P, input: &[u8]) -> io::Result<()> {
    run::<{ emission::MOST_INPUT }, _>(input, |buffer, n| emission::answer(printer, buffer, n))
}

pub fn find<P: Print>(printer: &P, input: &[u8]) -> io::Result<()> {
    run::<{ finding::MOST_INPUT }, _>(input, |buffer, n| finding::answer(printer, buffer, n))
}

fn run<const ROOM: usize, F: FnOnce(&[u8], Input) -> io::Result<()>>(
    input: &[u8],
    answer: F,
) -> io::Result<()>
    requires room { ROOM < 2 ^ 63 }
    requires callable { (buffer : _) (n : _) → ROOM ≤ length buffer.now → count_of n ≤ length buffer.now → F.pre answer buffer n }
{
    let mut buffer = [0u8; ROOM];
    let n = report::copied(input, &mut buffer);
    answer(&buffer, n)
}
