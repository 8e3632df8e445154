// What the programs that the gate runs have in common: printing a refusal with its values, and opening a file by its number.
#![tactic(auto)]

use model::WallError;
use std::rt::Files;
use std::{fs, io};

// How many values each refusal has, by its number.
const VALUES: [usize; 21] = [
    0, 2, 4, 1, 2, 1, 1, 1, 0, 1, 0, 2, 1, 3, 3, 1, 1, 1, 0, 0, 0,
];

// A space and the number.
pub fn print_word(rt: &impl Print, n: u64) -> io::Result<()> {
    print!(rt; " {n}")
}

// A refusal's number and its values, or ok.
pub fn print_refusal(rt: &impl Print, told: Result<(), WallError>) -> io::Result<()> {
    let Err(e) = told else {
        return println!(rt; "ok");
    };
    let number = refusals::number(e);
    print!(rt; "refused {number}")?;
    let count = VALUES.get(number).copied().unwrap_or(0);
    for value in refusals::values(e).iter().take(count) {
        print_word(rt, *value)?;
    }
    println!(rt;)
}

// The file of data/ whose name is k, two digits; none where it can't be opened. The name is printed as a line.
pub fn open_numbered<R: Files + Print>(rt: &R, k: u8) -> io::Result<Option<R::File>> {
    let digits = [b'0' + k / 10 % 10, b'0' + k % 10];
    let name = str::from_utf8(&digits).unwrap();
    println!(rt; "{name}")?;
    Ok(fs::open(rt, name).ok())
}
