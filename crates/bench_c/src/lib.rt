// The search and the marks for another language to link. Every length and position is tested, so nothing is required.
#![tactic(auto)]

ghost use Rattle.std.specs.Prelude.{◌≡◌, true, ◌+◌, ◌≤◌, ◌<◌, length};
ghost use Rattle.search.specs.Places.{Blank};
ghost use Rattle.way_back.specs.Ways.{Window, size};
ghost use Rattle.route.specs.Answer.{Inside, Lent};
ghost use Rattle.bench_c.specs.Ready.{Ready, Along, Long, Markable, window_at};

use model::{
    CollisionBounds, DepotFootprint, Ground, PixelPosition, PixelRect, Plan, TilePosition,
    WallBuilding,
};
use stamps::Frame;

// Whether the areas are long enough for w by h centers, at most 1,024 a side.
fn ready(w: usize, h: usize, marks: usize, parents: usize, queue: usize, out: usize) -> bool
    ensures { result ≡ true → Ready w h marks parents queue out }
{
    w <= 1024 && h <= 1024 && marks >= w * h && parents >= w * h && queue >= w * h && out >= w * h
}

// Whether p lies in a window of w by h centers at (0, 0).
fn inside(w: usize, h: usize, p: PixelPosition) -> bool
    ensures { result ≡ true → (p.x < w) × (p.y < h) }
{
    (p.x as usize) < w && (p.y as usize) < h
}

// The number of the route's points, which stand in `out`, in the window at (0, 0); 0 where there is no route, or where an
// area is too short or an end outside the window.
#[unsafe(no_mangle)]
pub extern "C" fn bench_c_route(
    marks: &[u8],
    w: usize,
    h: usize,
    parents: &mut [u32],
    queue: &mut [u32],
    out: &mut [u32],
    start_x: u32,
    start_y: u32,
    end_x: u32,
    end_y: u32,
) -> usize {
    let start = PixelPosition {
        x: start_x,
        y: start_y,
    };
    let end = PixelPosition { x: end_x, y: end_y };
    if !ready(w, h, marks.len(), parents.len(), queue.len(), out.len()) {
        return 0;
    }
    if !inside(w, h, start) {
        return 0;
    }
    if !inside(w, h, end) {
        return 0;
    }
    let frame = Frame {
        left: 0,
        top: 0,
        width: w,
        height: h,
    };
    route::route(marks, frame, parents, queue, out, start, end).unwrap_or(0)
}

// Searches `times` times in areas that are zeros.
fn repeat(
    marks: &[u8],
    frame: Frame,
    parents: &mut [u32],
    queue: &mut [u32],
    out: &mut [u32],
    start: PixelPosition,
    end: PixelPosition,
    times: usize,
) -> usize
    requires window { Window frame × Inside frame start × Inside frame end }
    requires lent { Lent frame marks.now parents.old queue.old × (size frame ≤ length out.old) }
    requires blank { Blank (size frame) parents.old × Blank (size frame) queue.old }
{
    let mut found = 0;
    for _ in 0..times {
        found = route::find_route(marks, frame, parents, queue, out, start, end).unwrap_or(0);
    }
    found
}

// The same as bench_c_route, but that the working areas are cleared once and the search is done `times` times: what a
// search costs where the areas are zeros already.
#[unsafe(no_mangle)]
pub extern "C" fn bench_c_repeat(
    marks: &[u8],
    w: usize,
    h: usize,
    parents: &mut [u32],
    queue: &mut [u32],
    out: &mut [u32],
    start_x: u32,
    start_y: u32,
    end_x: u32,
    end_y: u32,
    times: usize,
) -> usize {
    let start = PixelPosition {
        x: start_x,
        y: start_y,
    };
    let end = PixelPosition { x: end_x, y: end_y };
    if !ready(w, h, marks.len(), parents.len(), queue.len(), out.len()) {
        return 0;
    }
    if !inside(w, h, start) {
        return 0;
    }
    if !inside(w, h, end) {
        return 0;
    }
    let frame = Frame {
        left: 0,
        top: 0,
        width: w,
        height: h,
    };
    parents[..w * h].fill(0);
    queue[..w * h].fill(0);
    repeat(marks, frame, parents, queue, out, start, end, times)
}

// Whether so many centers from start on lie along a side of so many cells, within the caps.
fn along(start: usize, size: usize, cells: usize) -> bool
    ensures { result ≡ true → Along start size cells }
{
    size > 0 && size <= 1024 && cells <= 1024 && start <= 8192 && start + size <= 8 * cells
}

// Whether the areas are long enough for the marks of w by h centers, at most 1,024 a side.
fn roomy(w: usize, h: usize, base: usize, planned: usize, marks: usize) -> bool
    requires { (w ≤ 1024) × (h ≤ 1024) }
    ensures { result ≡ true → Long w h base planned marks }
{
    let counts = (w + 1) * (h + 1);
    base >= counts && planned >= counts && marks >= 2 * (w * h)
}

// The window of w by h centers at (left, top).
fn window_at(left: usize, top: usize, w: usize, h: usize) -> PixelRect
    requires { (left + w ≤ 8192) × (top + h ≤ 8192) }
    ensures { result ≡ window_at left top w h }
{
    PixelRect {
        left: left as i32,
        top: top as i32,
        right: (left + w) as i32,
        bottom: (top + h) as i32,
    }
}

// The building at place at of a list, in eight words: tile, footprint, collision.
fn building_at(words: &[u32], at: usize) -> WallBuilding
    requires { at + 8 ≤ length words.now }
{
    WallBuilding {
        tile: TilePosition {
            x: words[at],
            y: words[at + 1],
        },
        footprint: DepotFootprint {
            width_tiles: words[at + 2],
            height_tiles: words[at + 3],
        },
        collision: CollisionBounds {
            left: words[at + 4],
            top: words[at + 5],
            right: words[at + 6],
            bottom: words[at + 7],
        },
    }
}

// The plan of a list of buildings, of which the first 32 count.
fn plan_of(words: &[u32]) -> Plan
    ensures { result.count ≤ 32 }
{
    let mut buildings = [WallBuilding::default(); 32];
    let given = words.len() / 8;
    // Returned from the loop: where the count is worked out first, the compiler calls memcpy for the plan.
    for count in 0..32 {
        if count >= given {
            return Plan { buildings, count };
        }
        buildings[count] = building_at(words, 8 * count);
    }
    Plan {
        buildings,
        count: 32,
    }
}

// Whether w by h centers at (left, top) of a map of so many cells and obstacle words can be marked in areas of these lengths.
fn markable(
    width: usize,
    height: usize,
    cells: usize,
    words: usize,
    left: usize,
    top: usize,
    w: usize,
    h: usize,
    base: usize,
    planned: usize,
    marks: usize,
) -> bool
    ensures { result ≡ true → Markable width height cells words left top w h base planned marks }
{
    along(left, w, width)
        && along(top, h, height)
        && cells == width * height
        && words <= 32768
        && roomy(w, h, base, planned, marks)
}

// Marks w by h centers at (left, top) for a mover of one extent to all sides. False, and nothing is written, where the map, the
// window or an area is not as it must be.
#[unsafe(no_mangle)]
pub extern "C" fn bench_c_marks(
    width: u32,
    height: u32,
    cells: &[u8],
    words: &[i32],
    left: usize,
    top: usize,
    w: usize,
    h: usize,
    extent: u32,
    plan: &[u32],
    base: &mut [u32],
    planned: &mut [u32],
    marks: &mut [u8],
) -> bool {
    if !markable(
        width as usize,
        height as usize,
        cells.len(),
        words.len(),
        left,
        top,
        w,
        h,
        base.len(),
        planned.len(),
        marks.len(),
    ) {
        return false;
    }
    let window = window_at(left, top, w, h);
    let mover = CollisionBounds {
        left: extent,
        top: extent,
        right: extent,
        bottom: extent,
    };
    let buildings = plan_of(plan);
    let ground = Ground {
        width,
        height,
        cells,
        words,
    };
    marks::mark_centers(ground, window, mover, buildings, base, planned, marks);
    true
}
