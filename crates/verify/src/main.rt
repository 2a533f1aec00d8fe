// The checking program: one table and one plan from standard input, one line to standard output.
#![tactic(auto)]

use std::io;

// Three lines in each program, which README names as left to read: a function of all three would be no shorter.
fn main(rt: HostRuntime) -> io::Result<()> {
    let mut buffer = [0u8; verifying::MOST_INPUT];
    let input = report::read(&mut rt.stdin(), &mut buffer)?;
    verifying::answer(&rt, &buffer, input)
}
