// Whether a list of route words leads from one end to the other, by the marks of a window's centers.
#![tactic(auto)]

ghost use Rattle.std.specs.Prelude.{◌≡◌, ◌&&◌, [], map, ◌+◌, ◌≤◌, length, get_or, take, drop};
ghost use Rattle.model.specs.Steps.{point_of};
ghost use Rattle.model.specs.RouteTest as test;
ghost use Rattle.way_back.specs.Ways.{Window, size};
ghost use Rattle.route_list.specs.Reading.{ByMarks, Framed};

use model::PixelPosition;
use stamps::Frame;

// Whether two columns or rows differ by at most one.
fn near(a: u32, b: u32) -> bool
    ensures { result ≡ test.near a b }
{
    a.abs_diff(b) <= 1
}

// The center that a route word names.
fn point_of(word: u32) -> PixelPosition
    ensures { result ≡ point_of word }
{
    PixelPosition {
        x: word / 65536,
        y: word % 65536,
    }
}

// Whether p lies in the window and its mark says that it is free.
fn is_free(marks: &[u8], frame: Frame, p: PixelPosition) -> bool
    requires { Framed marks.now frame }
    ensures { ByMarks marks.now frame (λ free. free p.x p.y) result }
{
    let left = frame.left as usize;
    let top = frame.top as usize;
    let x = search::wide(p.x);
    let y = search::wide(p.y);
    if x < left || y < top || x - left >= frame.width || y - top >= frame.height {
        return false;
    }
    route::is_clear(marks, frame, p)
}

// Whether q may follow p: near on each axis, with both side centers free where they differ on both.
#[tactic(auto, unfolding(model::specs::RouteTest::follows))]
fn follows(marks: &[u8], frame: Frame, p: PixelPosition, q: PixelPosition) -> bool
    requires { Framed marks.now frame }
    ensures { ByMarks marks.now frame (λ free. test.follows free p q) result }
{
    let beside = is_free(marks, frame, PixelPosition { x: q.x, y: p.y });
    let below = is_free(marks, frame, PixelPosition { x: p.x, y: q.y });
    let straight = (p.x == q.x) | (p.y == q.y);
    near(p.x, q.x) & near(p.y, q.y) & (straight | (beside & below))
}

// Whether p is free and q may follow it.
fn goes_on(marks: &[u8], frame: Frame, p: PixelPosition, q: PixelPosition) -> bool
    requires { Framed marks.now frame }
    ensures { ByMarks marks.now frame (λ free. free p.x p.y && test.follows free p q) result }
{
    is_free(marks, frame, p) & follows(marks, frame, p, q)
}

// Whether p is free, and is the end.
#[tactic(auto, unfolding(model::specs::RouteTest::leads_to))]
fn arrives(marks: &[u8], frame: Frame, p: PixelPosition, end: PixelPosition) -> bool
    requires { Framed marks.now frame }
    ensures { ByMarks marks.now frame (λ free. test.leads_to free end p []) result }
{
    is_free(marks, frame, p) && p == end
}

// Whether each point of the list is free and followed by the next, and the last is the end.
fn leads_to(marks: &[u8], frame: Frame, list: &[u32], end: PixelPosition) -> bool
    requires { Framed marks.now frame × (1 ≤ length list.now) }
    ensures { ByMarks marks.now frame (λ free. test.leads_to free end (point_of (get_or list.now 0 0)) (map point_of (drop 1 list.now))) result }
{
    let last = list.len() - 1;
    for i in 0..last {
        if !goes_on(marks, frame, point_of(list[i]), point_of(list[i + 1])) {
            return false;
        }
    }
    arrives(marks, frame, point_of(list[last]), end)
}

// Whether the list is a passage: not empty, from the start, to the end, over free centers and past no corner.
fn is_passage(
    marks: &[u8],
    frame: Frame,
    list: &[u32],
    start: PixelPosition,
    end: PixelPosition,
) -> bool
    requires { Framed marks.now frame }
    ensures { ByMarks marks.now frame (λ free. test.is_passage free start end (map point_of list.now)) result }
{
    let [first, ..] = list else {
        return false;
    };
    point_of(*first) == start && leads_to(marks, frame, list, end)
}

// The same by the marks after the plan, which stand behind those before it.
pub fn is_passage_planned(
    marks: &[u8],
    frame: Frame,
    list: &[u32],
    start: PixelPosition,
    end: PixelPosition,
) -> bool
    requires { Window frame × (size frame + size frame ≤ length marks.now) }
    ensures { ByMarks (take (size frame) (drop (size frame) marks.now)) frame (λ free. test.is_passage free start end (map point_of list.now)) result }
{
    let n = frame.width * frame.height;
    let planned = &marks[n..];
    is_passage(&planned[..n], frame, list, start, end)
}
