// The search: breadth first over the centers of a window, from one place to another.
//
// A center is known by its place, its row times the window's width plus its column. A mark is 0 at a free center. A
// parent is 0 where a center has not been found, and its parent's place and 1 else. Each center enters the queue at
// most once, so the queue never wraps.
#![tactic(auto)]

ghost use Rattle.std.specs.Prelude.{◌≡◌, true, false, ℕ, ◌+◌, ◌*◌, ◌/◌, ◌%◌, ◌<◌, ◌≤◌, length, get_or};
ghost use Rattle.model.specs.Steps.{raised};
ghost use Rattle.search.specs.Places.{Free, Marked, Placed, size, Areas, Blank, Inner, Stays, Small, eastward, southward, ahead, Seen, Around, Allows};
ghost use Rattle.search.specs.Search.{noted, Growing, Tried, Works, Sought};

// The centers that a search goes over: their marks, row by row, and the window's size.
#[derive(Clone, Copy, Debug, PartialEq, Eq)]
pub struct Field<'a> {
    pub marks: &'a [u8],
    pub width: usize,
    pub height: usize,
}

// A center, by its place, its column and its row.
#[derive(Clone, Copy, Debug, PartialEq, Eq)]
struct Center {
    place: usize,
    x: usize,
    y: usize,
}

// Whether a search found the end, and how many entries of the queue it used, in either case.
#[derive(Clone, Copy, Debug, PartialEq, Eq)]
pub struct Ended {
    pub found: bool,
    pub used: usize,
}

// The eight steps. Their fixed order makes equivalent shortest routes deterministic.
const STEPS: [[i32; 2]; 8] = [
    [1, 0],
    [0, 1],
    [-1, 0],
    [0, -1],
    [1, 1],
    [-1, 1],
    [-1, -1],
    [1, -1],
];

pub fn wide(x: u32) -> usize
    ensures { (result ≡ x) × (result < 4294967296) }
{
    x as usize
}

// A move and one more, which is not negative.
fn lifted(d: i32) -> usize
    requires { raised d ≤ 2 }
    ensures { result ≡ raised d }
{
    match d {
        0 => 1,
        1 => 2,
        _ => 0,
    }
}

// The place that step d leads to from place p.
fn step_from(w: usize, p: usize, d: [i32; 2]) -> usize
    requires small { Small d }
    requires limit { (w ≤ 1048576) × (p < 1048576) }
    requires ahead { w + 1 ≤ p + (eastward d + southward d * w) }
    ensures { result ≡ ahead w p d }
{
    p + (lifted(d[0]) + lifted(d[1]) * w) - (w + 1)
}

// Whether step d stays in the window. Only at the window's edge is there anything to test.
fn stays<const AT_EDGE: bool>(field: Field<'_>, from: Center, d: [i32; 2]) -> bool
    requires limit { field.width * field.height ≤ 1048576 }
    requires placed { Placed field from }
    requires inner { AT_EDGE ≡ false → Inner field.width field.height from.x from.y }
    requires small { Small d }
    ensures yes { result ≡ true → Stays field.entry.width field.entry.height from.x from.y d }
    ensures no { result ≡ false → Stays field.entry.width field.entry.height from.x from.y d → ⊥ }
{
    if !AT_EDGE {
        return true;
    }
    let east = from.x + lifted(d[0]);
    let south = from.y + lifted(d[1]);
    0 < east && east <= field.width && 0 < south && south <= field.height
}

// The mark of the center that step d leads to, and 1 where that is outside the window.
fn neighbour<const AT_EDGE: bool>(field: Field<'_>, from: Center, d: [i32; 2]) -> usize
    requires marked { Marked field }
    requires placed { Placed field from }
    requires inner { AT_EDGE ≡ false → Inner field.width field.height from.x from.y }
    requires small { Small d }
    ensures { Seen (Free field.entry) from.x from.y d result }
{
    if !stays::<AT_EDGE>(field, from, d) {
        return 1;
    }
    marks::mark(field.marks, step_from(field.width, from.place, d))
}

// What the eight steps from a center lead to: 0 for a free center.
fn around<const AT_EDGE: bool>(field: Field<'_>, from: Center) -> [usize; 8]
    requires marked { Marked field }
    requires placed { Placed field from }
    requires inner { AT_EDGE ≡ false → Inner field.width field.height from.x from.y }
    ensures { Around (Free field.entry) from.x from.y result }
{
    let mut seen = [0usize; 8];
    for k in 0..8 {
        let d = STEPS[k];
        seen[k] = neighbour::<AT_EDGE>(field, from, d);
    }
    seen
}

// Which steps a center allows, by what its steps lead to: 0 for a step that it allows. A diagonal one needs both sides free.
fn barred(seen: [usize; 8]) -> [usize; 8]
    requires { (k : ℕ) → k < 8 → get_or seen k 0 ≤ 255 }
    ensures { Allows seen result }
{
    [
        seen[0],
        seen[1],
        seen[2],
        seen[3],
        seen[4] + seen[0] + seen[1],
        seen[5] + seen[2] + seen[1],
        seen[6] + seen[2] + seen[3],
        seen[7] + seen[0] + seen[3],
    ]
}

// Tries step d from place p: the place that it leads to is queued, with its parent, unless the step is barred or the place has
// been found. Returns the queue's new end. At the window's edge only a step that is not barred leads to a place of the window.
fn try_step<const AT_EDGE: bool>(
    w: usize,
    parents: &mut [u32],
    queue: &mut [u32],
    tail: usize,
    p: usize,
    d: [i32; 2],
    bar: usize,
) -> usize
    requires growing { Growing parents.old queue.old tail }
    requires small { Small d × (w ≤ 1048576) × (p < length parents.old) × (bar ≤ 765) }
    requires lands { (AT_EDGE ≡ true → bar ≡ 0) → (w + 1 ≤ p + (eastward d + southward d * w)) × (ahead w p d < length parents.old) }
    ensures { Tried p (ahead w p d) bar queue.old parents.old tail queue.new parents.new result }
{
    if AT_EDGE && bar != 0 {
        return tail;
    }
    let next = step_from(w, p, d);
    // One sum and one test: two branches would be foretold worse.
    if wide(parents[next]) + bar != 0 {
        return tail;
    }
    parents[next] = (p + 1) as u32;
    queue[tail] = next as u32;
    tail + 1
}

// Tries the eight steps of the queue's entry `head`, a center, in their order. Returns the queue's new end.
fn try_steps<const AT_EDGE: bool>(
    field: Field<'_>,
    parents: &mut [u32],
    queue: &mut [u32],
    head: usize,
    tail: usize,
    from: Center,
) -> usize
    requires areas { Areas field.width field.height field.marks.now parents.old queue.old }
    requires entry { (head < tail) × (noted parents.old ≡ tail) × (get_or queue.old head 0 ≡ from.place) }
    requires placed { Placed field from × Free field from.x from.y }
    requires inner { AT_EDGE ≡ false → Inner field.width field.height from.x from.y }
    ensures { Works (Free field.entry) field.entry.width head queue.old parents.old tail 0 queue.new parents.new result 8 }
{
    let bars = barred(around::<AT_EDGE>(field, from));
    let mut end = tail;
    for k in 0..8 {
        let d = STEPS[k];
        let bar = bars[k];
        end = try_step::<AT_EDGE>(field.width, parents, queue, end, from.place, d, bar);
    }
    end
}

// Tries the eight steps of the queue's entry `head` in their order. Returns the queue's new end.
fn expand(
    field: Field<'_>,
    parents: &mut [u32],
    queue: &mut [u32],
    head: usize,
    tail: usize,
) -> usize
    requires areas { Areas field.width field.height field.marks.now parents.old queue.old }
    requires entry { (head < tail) × (noted parents.old ≡ tail) }
    requires free { Free field (get_or queue.old head 0 % field.width) (get_or queue.old head 0 / field.width) }
    ensures { Works (Free field.entry) field.entry.width head queue.old parents.old tail 0 queue.new parents.new result 8 }
{
    let place = wide(queue[head]);
    let x = place % field.width;
    let y = place / field.width;
    let from = Center { place, x, y };
    if 0 < x && x + 1 < field.width && 0 < y && y + 1 < field.height {
        return try_steps::<false>(field, parents, queue, head, tail, from);
    }
    try_steps::<true>(field, parents, queue, head, tail, from)
}

// Searches from `start`, which is free, for `end`.
pub fn seek(
    field: Field<'_>,
    parents: &mut [u32],
    queue: &mut [u32],
    start: usize,
    end: usize,
) -> Ended
    requires areas { Areas field.width field.height field.marks.now parents.old queue.old }
    requires start_free { (start < size field) × Free field (start % field.width) (start / field.width) }
    requires blank { Blank (size field) parents.old × Blank (size field) queue.old }
    ensures { Sought (Free field.entry) field.entry.width start end (size field.entry) queue.new parents.new result.found result.used }
{
    parents[start] = (start + 1) as u32;
    queue[0] = start as u32;
    let mut head = 0;
    let mut tail = 1;
    while head < tail {
        if wide(queue[head]) == end {
            return Ended {
                found: true,
                used: tail,
            };
        }
        tail = expand(field, parents, queue, head, tail);
        head += 1;
    }
    Ended {
        found: false,
        used: tail,
    }
}
