// The program wall report: the bytes of a packed query to the text that is printed.
#![tactic(auto)]

ghost use Rattle.std.specs.Prelude.{◌≡◌, ◌++◌, ◌≤◌, ◌<◌, length, IfSome, OnOk};
ghost use Rattle.model.specs.Ground.{seen};
ghost use Rattle.model.specs.Refusal.{refusal, given, first};
ghost use Rattle.model.specs.Packed.{ground_in, query_in};
ghost use Rattle.model.specs.Report.{header_lines, reading_lines, check_lines, refused_text};
ghost use Rattle.text.specs.Writing.{Wrote};
ghost use Rattle.report.specs.Printing.{report_room, refused_room};
ghost use Rattle.program.specs.Promise.{Told, Printed, Ran, longest, Reported};

use model::{Ground, WallError, WallQuery};
use std::io;
use std::io::{Read, Write};

// A refusal prints only its number.
fn print_refusal(out: &mut [u8], e: WallError) -> usize
    requires { refused_room ≤ length out.old }
    ensures { Wrote out.old 0 (refused_text (refusal e).number) out.new result }
{
    report::refused(out, refusals::number(e))
}

// 18 where the header is not whole, and 20 by the header alone.
fn check_header(input: &[u8]) -> Result<(), WallError>
    ensures { given result ≡ first (header_lines input.now) }
{
    if input.len() < 5 {
        return Err(WallError::PackedShort);
    }
    let h = packed::read_header(input);
    if (h.width > 64) | (h.height > 64) | (h.obstacles > 32) {
        return Err(WallError::ProgramLimit);
    }
    Ok(())
}

// Checks the query in areas of the program's numbers, and prints the report or the refusal.
fn print_check(out: &mut [u8], ground: Ground<'_>, query: WallQuery) -> usize
    requires { report_room ≤ length out.old }
    ensures { Told (check_lines (seen ground.entry) query) (seen ground.entry) query out.old out.new result }
{
    let mut issues = [0u32; 2080];
    let mut base = [0u32; 1681];
    let mut planned = [0u32; 1681];
    let mut marks = [0u8; 3200];
    let mut parents = [0u32; 1600];
    let mut queue = [0u32; 1600];
    let mut route = [0u32; 1600];
    let reply = walls::check_wall(
        ground,
        query,
        &mut issues,
        &mut base,
        &mut planned,
        &mut marks,
        &mut parents,
        &mut queue,
        &mut route,
    );
    match reply {
        Ok(check) => report::report(out, check, query.plan.count, &issues, &route),
        Err(e) => print_refusal(out, e),
    }
}

// Reads the query into areas of the program's numbers, and checks it.
fn print_packed(out: &mut [u8], input: &[u8]) -> usize
    requires { report_room ≤ length out.old }
    ensures { Told (reading_lines input.now ++ check_lines (ground_in input.now) (query_in input.now)) (ground_in input.now) (query_in input.now) out.old out.new result }
{
    let mut cells = [0u8; 4096];
    let mut words = [0i32; 128];
    let packed = match packed::read_packed(input, &mut cells, &mut words) {
        Ok(packed) => packed,
        Err(e) => return print_refusal(out, e),
    };
    let n = packed.width as usize * packed.height as usize;
    let k = 4 * packed.obstacles;
    let ground = Ground {
        width: packed.width,
        height: packed.height,
        cells: &cells[..n],
        words: &words[..k],
    };
    print_check(out, ground, packed.query)
}

// What the program prints for these bytes, at the start of `out`.
pub fn print_input(out: &mut [u8], input: &[u8]) -> usize
    requires { report_room ≤ length out.old }
    ensures { Printed input.now out.old out.new result }
{
    if let Err(e) = check_header(input) {
        return print_refusal(out, e);
    }
    print_packed(out, input)
}

// What the program prints for an input whose first n bytes, all or as many as the buffer holds, were read into the buffer.
// An input that is longer than any that is accepted is refused by its first bytes, so the buffer need not hold it.
pub fn run(out: &mut [u8], buffer: &[u8], n: usize) -> usize
    requires { (report_room ≤ length out.old) × (n ≤ length buffer.now) × (longest < length buffer.now) }
    ensures { Ran buffer.now n out.old out.new result }
{
    print_input(out, &buffer[..n])
}

// Reads a packed query from the input, and writes what the program prints for it.
pub fn report_from<R: Read, W: Write>(input: &mut R, output: &mut W) -> io::Result<()>
    ensures { OnOk result (IfSome (R.remaining input.old) (Reported (W.contents output.old) (W.contents output.new))) }
{
    let mut buffer = [0u8; 8192];
    let n = reading::read_full(input, &mut buffer)?;
    let mut out = [0u8; 171115];
    let end = run(&mut out, &buffer, n);
    output.write_all(&out[..end])
}
