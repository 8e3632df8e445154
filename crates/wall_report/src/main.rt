// The program wall report: reads a packed query from standard input, and prints the report or the refusal.
#![tactic(auto)]

use std::io;

fn main(rt: HostRuntime) -> io::Result<()> {
    program::report_from(&mut rt.stdin(), &mut rt.stdout())
}
