// One mover's passage between one pair of ends: the centers are marked, searched after the plan, and before the plan only where that is not settled.
#![tactic(auto)]

ghost use Rattle.std.specs.Prelude.{◌≡◌, ◌+◌, ◌≤◌, length, take, drop};
ghost use Rattle.model.specs.Ground.{seen};
ghost use Rattle.model.specs.Areas.{cleared};
ghost use Rattle.model.specs.Accepted.{Within};
ghost use Rattle.marks.specs.Marks.{Ready};
ghost use Rattle.search.specs.Places.{Blank};
ghost use Rattle.way_back.specs.Ways.{Window, size};
ghost use Rattle.route.specs.Answer.{Clear, Inside, Lent};
ghost use Rattle.passage.specs.Passing.{Looks, Judges, PassEnough, PassAnswers, pass_areas, verdict_of};

use model::{
    CollisionBounds, Ground, Passed, PixelPosition, PixelRect, Plan, WallEndpoint, WallPassage,
};
use stamps::Frame;

// Looks for a way from `start` to `end` by the marks after the plan: the number of its points, if there is one, or the end that
// is blocked. The working areas come as zeros, and are left so.
fn look(
    after: &[u8],
    frame: Frame,
    parents: &mut [u32],
    queue: &mut [u32],
    out: &mut [u32],
    start: PixelPosition,
    end: PixelPosition,
) -> Result<Option<usize>, WallEndpoint>
    requires window { Window frame × Inside frame start × Inside frame end }
    requires lent { Lent frame after.now parents.old queue.old × (size frame ≤ length out.old) }
    requires blank { Blank (size frame) parents.old × Blank (size frame) queue.old }
    ensures { Looks (Clear after.now frame) start end parents.old parents.new queue.old queue.new out.old out.new result }
{
    if !route::is_clear(after, frame, start) {
        return Err(WallEndpoint::Start);
    }
    if !route::is_clear(after, frame, end) {
        return Err(WallEndpoint::End);
    }
    Ok(route::find_route(after, frame, parents, queue, out, start, end))
}

// The verdict that a look and the baseline give.
fn verdict(looked: Result<Option<usize>, WallEndpoint>, baseline: bool) -> WallPassage
    ensures { result ≡ verdict_of looked baseline }
{
    match looked {
        Err(WallEndpoint::Start) => WallPassage::StartBlocked,
        Err(WallEndpoint::End) => WallPassage::EndBlocked,
        Ok(Some(_)) => WallPassage::Open,
        Ok(None) if baseline => WallPassage::BlockedWithinWindow,
        Ok(None) => WallPassage::AlreadyDisconnected,
    }
}

// The verdict, the baseline and the route, by the marks before the plan and after it. What is free after the plan was free
// before it, so an open way settles the baseline, and only where there is none is the ground searched without the plan.
fn judge(
    before: &[u8],
    after: &[u8],
    frame: Frame,
    parents: &mut [u32],
    queue: &mut [u32],
    out: &mut [u32],
    start: PixelPosition,
    end: PixelPosition,
) -> Passed
    requires window { Window frame × Inside frame start × Inside frame end }
    requires lent { Lent frame before.now parents.old queue.old × Lent frame after.now parents.old queue.old × (size frame ≤ length out.old) }
    requires blank { Blank (size frame) parents.old × Blank (size frame) queue.old }
    ensures { Judges frame before.now after.now start end parents.old parents.new queue.old queue.new out.old out.new result }
{
    let looked = look(after, frame, parents, queue, out, start, end);
    if let Ok(Some(points)) = looked {
        return Passed {
            passage: WallPassage::Open,
            baseline_passable: true,
            points,
        };
    }
    let baseline = route::find_chain(before, frame, parents, queue, start, end);
    Passed {
        passage: verdict(looked, baseline),
        baseline_passable: baseline,
        points: 0,
    }
}

// The same by the marks of a frame's centers, those before the plan first and those after it behind them, with working areas that
// come with anything and end as zeros.
fn judged(
    marks: &[u8],
    frame: Frame,
    parents: &mut [u32],
    queue: &mut [u32],
    out: &mut [u32],
    start: PixelPosition,
    end: PixelPosition,
) -> Passed
    requires window { Window frame × Inside frame start × Inside frame end }
    requires marks_long { size frame + size frame ≤ length marks.now }
    requires room { (size frame ≤ length parents.old) × (size frame ≤ length queue.old) × (size frame ≤ length out.old) }
    ensures { Judges frame (take (size frame) marks.now) (take (size frame) (drop (size frame) marks.now)) start end (cleared (size frame) parents.old) parents.new (cleared (size frame) queue.old) queue.new out.old out.new result }
{
    let n = frame.width * frame.height;
    let planned = &marks[n..];
    parents[..n].fill(0);
    queue[..n].fill(0);
    judge(
        &marks[..n],
        &planned[..n],
        frame,
        parents,
        queue,
        out,
        start,
        end,
    )
}

// One mover's passage between one pair of ends, over the ground and after the plan. The route's words stand first in `out`, and the
// working areas end as zeros up to their numbers.
pub fn passage(
    ground: Ground<'_>,
    window: PixelRect,
    mover: CollisionBounds,
    plan: Plan,
    start: PixelPosition,
    end: PixelPosition,
    base: &mut [u32],
    planned: &mut [u32],
    marks: &mut [u8],
    parents: &mut [u32],
    queue: &mut [u32],
    out: &mut [u32],
) -> Passed
    requires ready { Ready (seen ground) window plan × Within window start × Within window end }
    requires pass_enough { PassEnough window (pass_areas base.old planned.old marks.old parents.old queue.old out.old) }
    ensures { PassAnswers (seen ground.entry) window mover plan start end (pass_areas base.old planned.old marks.old parents.old queue.old out.old) (pass_areas base.new planned.new marks.new parents.new queue.new out.new) result }
{
    marks::mark_centers(ground, window, mover, plan, base, planned, marks);
    let frame = marks::frame_of(window);
    let passed = judged(marks, frame, parents, queue, out, start, end);
    marks::clear_marks(marks, 2 * (frame.width * frame.height));
    passed
}
