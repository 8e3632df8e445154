// Runs `check_wall` on each file of data/: seven words, how many places the areas 2 to 8 have, and then a packed query. `make.py` says what each holds.
//
// Every place of an area comes as 7. Of areas 3 to 7 it prints how many places at the front are then zero, and of every area how many are still 7.
#![tactic(auto)]

use model::{Ground, Passed, PixelRect, WallCheck, WallError, WallPlacement, WallQuery};
use runs::print_word;
use std::io;
use std::rt::Files;

fn print_rect(rt: &impl Print, r: PixelRect) -> io::Result<()> {
    print!(rt; " {} {} {} {}", r.left, r.top, r.right, r.bottom)
}

fn print_placement(rt: &impl Print, p: WallPlacement) -> io::Result<()> {
    print!(rt; "placement")?;
    print_rect(rt, p.footprint)?;
    print_rect(rt, p.collision)?;
    println!(rt; " {}", p.issues)
}

fn print_passed(rt: &impl Print, passed: Passed) -> io::Result<()> {
    let verdict = passed.passage as u64;
    let baseline = passed.baseline_passable as u64;
    println!(rt; "passage {verdict} {baseline} {}", passed.points)
}

// A line for each word up to the first that is still 7: its upper and its lower half. No case has the point (0, 7).
fn print_words(rt: &impl Print, label: &str, area: &[u32]) -> io::Result<()> {
    for word in area {
        if *word == 7 {
            return Ok(());
        }
        println!(rt; "{label} {} {}", *word / 65536, *word % 65536)?;
    }
    Ok(())
}

// How many places at the front are zero.
fn print_zeros<T: Copy + PartialEq>(rt: &impl Print, area: &[T], zero: T) -> io::Result<()> {
    let count = area.iter().position(|x| *x != zero).unwrap_or(area.len());
    print_word(rt, count as u64)
}

// How many places are still 7.
fn print_kept<T: Copy + PartialEq>(rt: &impl Print, area: &[T], seven: T) -> io::Result<()> {
    let mut count: usize = 0;
    // A sum of tests has no branch: `filter` and `count` take more than twice the instructions.
    for x in area {
        count += (*x == seven) as usize;
    }
    print_word(rt, count as u64)
}

// Checks with as many places of each area as the case says, or all of them.
fn lend(
    places: [usize; 7],
    ground: Ground<'_>,
    query: WallQuery,
    issues: &mut [u32],
    base: &mut [u32],
    planned: &mut [u32],
    marks: &mut [u8],
    parents: &mut [u32],
    queue: &mut [u32],
    route: &mut [u32],
) -> Result<WallCheck, WallError> {
    let i = places[0].min(issues.len());
    let b = places[1].min(base.len());
    let p = places[2].min(planned.len());
    let m = places[3].min(marks.len());
    let s = places[4].min(parents.len());
    let q = places[5].min(queue.len());
    let r = places[6].min(route.len());
    walls::check_wall(
        ground,
        query,
        &mut issues[..i],
        &mut base[..b],
        &mut planned[..p],
        &mut marks[..m],
        &mut parents[..s],
        &mut queue[..q],
        &mut route[..r],
    )
}

// Prints the answer, the words in areas 2 and 8, and what is left in the areas.
fn check(
    rt: &impl Print,
    places: [usize; 7],
    ground: Ground<'_>,
    query: WallQuery,
) -> io::Result<()> {
    let mut issues = [7u32; 24];
    let mut base = [7u32; 4226];
    let mut planned = [7u32; 4226];
    let mut marks = [7u8; 8193];
    let mut parents = [7u32; 4097];
    let mut queue = [7u32; 4097];
    let mut route = [7u32; 4097];
    let reply = lend(
        places,
        ground,
        query,
        &mut issues,
        &mut base,
        &mut planned,
        &mut marks,
        &mut parents,
        &mut queue,
        &mut route,
    );
    print_reply(rt, reply, query.plan.count)?;
    print_words(rt, "issue", &issues)?;
    print_words(rt, "point", &route)?;
    print!(rt; "zero")?;
    print_zeros(rt, &base, 0)?;
    print_zeros(rt, &planned, 0)?;
    print_zeros(rt, &marks, 0)?;
    print_zeros(rt, &parents, 0)?;
    print_zeros(rt, &queue, 0)?;
    println!(rt;)?;
    print!(rt; "kept")?;
    print_kept(rt, &issues, 7)?;
    print_kept(rt, &base, 7)?;
    print_kept(rt, &planned, 7)?;
    print_kept(rt, &marks, 7)?;
    print_kept(rt, &parents, 7)?;
    print_kept(rt, &queue, 7)?;
    print_kept(rt, &route, 7)?;
    println!(rt;)
}

// The refusal or ok, and of an accepted check the placements and the passage.
fn print_reply(
    rt: &impl Print,
    reply: Result<WallCheck, WallError>,
    count: usize,
) -> io::Result<()> {
    let check = match reply {
        Ok(check) => check,
        Err(e) => return runs::print_refusal(rt, Err(e)),
    };
    runs::print_refusal(rt, Ok(()))?;
    for placement in check.placements.iter().take(count) {
        print_placement(rt, *placement)?;
    }
    print_passed(rt, check.passed)
}

fn places_of(input: &[u8]) -> [usize; 7] {
    let mut places = [0; 7];
    for (place, pair) in places.iter_mut().zip(input.chunks_exact(2)) {
        *place = u16::from_be_bytes([pair[0], pair[1]]) as usize;
    }
    places
}

// The cells of a map of at most 1,024 by 1,024.
fn cell_count(width: u32, height: u32) -> usize {
    if (width > 1024) | (height > 1024) {
        return 0;
    }
    width as usize * height as usize
}

fn run(rt: &impl Print, input: &[u8]) -> io::Result<()> {
    if input.len() < 14 {
        return Ok(());
    }
    let mut cells = [0u8; 1024];
    let mut words = [0i32; 64];
    let packed = match packed::read_packed(&input[14..], &mut cells, &mut words) {
        Ok(packed) => packed,
        Err(e) => return runs::print_refusal(rt, Err(e)),
    };
    let n = cell_count(packed.width, packed.height).min(1024);
    let k = packed.obstacles.min(16);
    let ground = Ground {
        width: packed.width,
        height: packed.height,
        cells: &cells[..n],
        words: &words[..4 * k],
    };
    check(rt, places_of(input), ground, packed.query)
}

fn one<R: Files + Print>(rt: &R, k: u8) -> io::Result<()> {
    let Some(mut input) = runs::open_numbered(rt, k)? else {
        return Ok(());
    };
    let mut buffer = [0u8; 4096];
    let n = reading::read_full(&mut input, &mut buffer)?;
    drop(input);
    run(rt, &buffer[..n])
}

fn main(rt: HostRuntime) -> io::Result<()> {
    for k in 0..46 {
        one(&rt, k)?;
    }
    Ok(())
}
