// Which centers of the window are blocked, before the plan and after it: a mark for each. Blockers are counted in difference grids, and a center is
// blocked where a count is above zero.
#![tactic(auto)]

ghost use Rattle.std.specs.Prelude.{◌≡◌, ◌||◌, ◌+◌, ◌*◌, ◌<◌, ◌≤◌, ltb, pos, nat_abs, length, get_or};
ghost use Rattle.model.specs.Ground.{seen};
ghost use Rattle.model.specs.Areas.{cleared};
ghost use Rattle.marks.specs.Marks.{Centers, Ready, Roomy, areas, frame_of, mark_of};
ghost use Rattle.marks.specs.Passes.{Row, Part, Settled};

use model::{CollisionBounds, Ground, PixelRect, Plan};
use stamps::Frame;

// The mark of a center that so many blockers of the ground and of the plan cover.
fn mark_of(ground: u32, plan: u32) -> u8
    ensures { result ≡ mark_of (ltb 0 ground || ltb 0 plan) }
{
    (ground > 0 || plan > 0) as u8
}

// The mark at a place: 0 where its center may be passed.
pub fn mark(marks: &[u8], place: usize) -> usize
    requires { place < length marks.now }
    ensures { (result ≡ get_or marks.now place 0) × (result ≤ 255) }
{
    marks[place] as usize
}

// Marks the centers of a row, from the counts of the ground and of the plan.
fn mark_row(marks: &mut [u8], ground: &[u32], plan: &[u32])
    requires { (length marks.old ≤ length ground.now) × (length marks.old ≤ length plan.now) }
    ensures { Row ground.now plan.now marks.old marks.new }
{
    for i in 0..marks.len() {
        marks[i] = mark_of(ground[i], plan[i]);
    }
}

// Marks the centers of the window, row by row. The grids of counts have a column more than the window.
fn blocked_centers(marks: &mut [u8], ground: &[u32], plan: &[u32], frame: Frame)
    requires marks_room { frame.height * frame.width ≤ length marks.old }
    requires counts_room { ((frame.height + 1) * (frame.width + 1) ≤ length ground.now) × ((frame.height + 1) * (frame.width + 1) ≤ length plan.now) }
    ensures { Part frame.width frame.height ground.now plan.now marks.old marks.new }
{
    let width = frame.width;
    for y in 0..frame.height {
        let to = y * width;
        let from = y * (width + 1);
        mark_row(
            &mut marks[to..to + width],
            &ground[from..from + width],
            &plan[from..from + width],
        );
    }
}

// The window's corner and its size.
pub fn frame_of(window: PixelRect) -> Frame
    requires { (window.left ≡ pos (nat_abs window.left)) × (window.top ≡ pos (nat_abs window.top)) }
    ensures { result ≡ frame_of window }
{
    Frame {
        left: window.left as u64,
        top: window.top as u64,
        width: boxes::width(window),
        height: boxes::height(window),
    }
}

// Marks the window's centers from finished counts, those before the plan first and those after it behind them, and clears the counts.
fn settle(base: &mut [u32], planned: &mut [u32], marks: &mut [u8], frame: Frame)
    requires marks_room { frame.height * frame.width + frame.height * frame.width ≤ length marks.old }
    requires counts_room { ((frame.height + 1) * (frame.width + 1) ≤ length base.old) × ((frame.height + 1) * (frame.width + 1) ≤ length planned.old) }
    ensures { Settled frame.width frame.height (areas base.old planned.old marks.old) (areas base.new planned.new marks.new) }
{
    let counts = (frame.height + 1) * (frame.width + 1);
    let (before, after) = marks.split_at_mut(frame.height * frame.width);
    blocked_centers(before, base, base, frame);
    blocked_centers(after, base, planned, frame);
    base[..counts].fill(0);
    planned[..counts].fill(0);
}

// Marks the window's centers, before the plan and after it, as the definitions say which are free.
pub fn mark_centers(
    ground: Ground<'_>,
    window: PixelRect,
    mover: CollisionBounds,
    plan: Plan,
    base: &mut [u32],
    planned: &mut [u32],
    marks: &mut [u8],
)
    requires ready { Ready (seen ground) window plan }
    requires roomy { Roomy window (areas base.old planned.old marks.old) }
    ensures { Centers (seen ground.entry) window mover plan (areas base.old planned.old marks.old) (areas base.new planned.new marks.new) }
{
    let frame = frame_of(window);
    counts::count_ground(base, frame, mover, ground);
    counts::count_plan(planned, frame, mover, plan);
    settle(base, planned, marks, frame);
}

// Writes 0 to the first n marks.
pub fn clear_marks(marks: &mut [u8], n: usize)
    requires { n ≤ length marks.old }
    ensures { marks.new ≡ cleared n marks.old }
{
    marks[..n].fill(0);
}
