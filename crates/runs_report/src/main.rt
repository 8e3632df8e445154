// Runs the program on each file of data/, and prints the file's name before what the program prints. `make.py` says what each holds.
#![tactic(auto)]

use std::io;
use std::rt::Files;

fn one<R: Files + Print>(rt: &R, k: u8) -> io::Result<()> {
    let Some(mut input) = runs::open_numbered(rt, k)? else {
        return Ok(());
    };
    program::report_from(&mut input, &mut io::writer(rt))
}

fn main(rt: HostRuntime) -> io::Result<()> {
    for k in 0..67 {
        one(&rt, k)?;
    }
    Ok(())
}
