// Text and numbers in a buffer that the caller lends. Each function puts its text behind the first `at` bytes and answers where the text ends.
#![tactic(auto)]

ghost use Rattle.std.specs.Prelude.{List, ◌++◌, ℕ};
ghost use mathlib.Core.List.{flat_map};
ghost use Rattle.model.specs.Report.{bytes, decimal};
ghost use Rattle.text.specs.Writing.{Fits, Wrote};

// The bytes of the text.
pub fn put(out: &mut [u8], at: usize, text: &[u8]) -> usize
    requires { Fits out.old at text.now }
    ensures { Wrote out.old at text.now out.new result }
{
    // By index, so that a trial can leave out one byte: of `copy_from_slice` the proof knows the whole alone, and refuses any loop in its place, a right one too.
    for k in 0..text.len() {
        out[at + k] = text[k];
    }
    at + text.len()
}

// The decimal digits of n.
pub fn put_number(out: &mut [u8], at: usize, n: u64) -> usize
    requires { Fits out.old at (decimal n) }
    ensures { Wrote out.old at (decimal n) out.new result }
{
    let mut digits = [0u8; 20];
    let k = io::decimal(n, &mut digits);
    put(out, at, &digits[..k])
}

// The label and the number behind it.
pub fn put_labelled(out: &mut [u8], at: usize, label: &[u8], n: u64) -> usize
    requires { Fits out.old at (label.now ++ decimal n) }
    ensures { Wrote out.old at (label.now ++ decimal n) out.new result }
{
    let next = put(out, at, label);
    put_number(out, next, n)
}

// The label and the number, at the end of a line.
pub fn put_ending(out: &mut [u8], at: usize, label: &[u8], n: u64) -> usize
    requires { Fits out.old at (label.now ++ (decimal n ++ bytes "\n")) }
    ensures { Wrote out.old at (label.now ++ (decimal n ++ bytes "\n")) out.new result }
{
    let next = put_labelled(out, at, label, n);
    put(out, next, b"\n")
}

// A line that tells of a word.
pub trait Line {
    ghost text: { ℕ → List ℕ };

    fn put(out: &mut [u8], at: usize, word: u32) -> usize
        requires { Fits out.old at (text word) }
        ensures { Wrote out.old at (text word) out.new result };
}

// A line for each word.
pub fn put_lines<L: Line>(out: &mut [u8], at: usize, words: &[u32]) -> usize
    requires { Fits out.old at (flat_map L.text words.now) }
    ensures { Wrote out.old at (flat_map L.text words.now) out.new result }
{
    let mut end = at;
    for word in words {
        end = L::put(out, end, *word);
    }
    end
}
