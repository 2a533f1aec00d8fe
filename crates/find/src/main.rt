// The finding program: one table and the limits of the search from standard input, the text of the plan found to standard output.
#![tactic(auto)]

use std::io;

// Three lines in each program, which README names as left to read: a function of all three would be no shorter.
fn main(rt: HostRuntime) -> io::Result<()> {
    let mut buffer = [0u8; finding::MOST_INPUT];
    let input = report::read(&mut rt.stdin(), &mut buffer)?;
    finding::answer(&rt, &buffer, input)
}
