// The emitting program: bound, form and table from standard input, the whole problem to standard output.
#![tactic(auto)]

use std::io;

// Three lines in each program, which README names as left to read: a function of all three would be no shorter.
fn main(rt: HostRuntime) -> io::Result<()> {
    let mut buffer = [0u8; emission::MOST_INPUT];
    let input = report::read(&mut rt.stdin(), &mut buffer)?;
    emission::answer(&rt, &buffer, input)
}
