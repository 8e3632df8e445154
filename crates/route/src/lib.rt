// The route: the search between two positions of a window, and the words of what it finds.
//
// Places, marks, parents and the queue are those of the search.
#![tactic(auto)]

ghost use Rattle.std.specs.Prelude.{◌≡◌, true, List, ℕ, ◌<◌, ◌≤◌, length, replicate};
ghost use Rattle.model.specs.Areas.{cleared};
ghost use Rattle.marks.specs.Marks.{Unmarked};
ghost use Rattle.search.specs.Places.{center, Areas, Blank};
ghost use Rattle.search.specs.Search.{Listed, Trail};
ghost use Rattle.way_back.specs.Ways.{Window, size, spot};
ghost use Rattle.route.specs.Trails.{Told, Opens};
ghost use Rattle.route.specs.Answer.{Says, Clear, Inside, Lent, Searched, Asked};

use model::PixelPosition;
use search::{Field, wide};
use stamps::Frame;

// Makes the parents of the queue's places zero.
fn forget_places(parents: &mut [u32], queue: &[u32])
    requires { Listed queue.now parents.old (length queue.now) }
    ensures { parents.new ≡ replicate (length parents.old) 0 }
{
    for place in queue {
        parents[wide(*place)] = 0;
    }
}

// Makes all parents zero, of which those of the queue's places are not. Where those are few, place by place; a plain sweep is
// faster where they are many.
fn forget(parents: &mut [u32], queue: &[u32])
    requires { Listed queue.now parents.old (length queue.now) }
    ensures { parents.new ≡ replicate (length parents.old) 0 }
{
    if queue.len() < parents.len() / 16 {
        forget_places(parents, queue);
    } else {
        parents.fill(0);
    }
}

// Makes the working areas zero again after a search that used the first `used` entries of the queue.
fn tidy(parents: &mut [u32], queue: &mut [u32], used: usize)
    requires { Listed queue.old parents.old used × (used ≤ length queue.old) }
    ensures { (parents.new ≡ replicate (length parents.old) 0) × (queue.new ≡ replicate (length queue.old) 0) }
{
    forget(parents, &queue[..used]);
    queue[..used].fill(0);
}

// Whether both ends are free.
fn opens(marks: &[u8], frame: Frame, start: usize, end: usize) -> bool
    requires { (size frame ≤ length marks.now) × (start < size frame) × (end < size frame) }
    ensures { Opens (Unmarked marks.now frame.width frame.height) (center frame.width start) (center frame.width end) result }
{
    marks::mark(marks, start) == 0 && marks::mark(marks, end) == 0
}

// Writes the way that the parents lead back, if one was found.
fn tell(
    parents: &[u32],
    out: &mut [u32],
    frame: Frame,
    start: usize,
    end: usize,
    found: bool,
) -> Option<usize>
    requires window { Window frame × (start < size frame) }
    requires room { (length parents.now ≡ size frame) × (size frame ≤ length out.old) }
    requires led { found ≡ true → (ps : List ℕ) × Trail parents.now start end ps × (length ps ≤ length parents.now) }
    ensures { Told parents.now start end frame found out.old out.new result }
{
    if !found {
        return None;
    }
    Some(way_back::write_way(parents, out, frame, start, end))
}

// The number of points of the route between two places, if there is one. The working areas come as zeros and end as zeros.
fn route_places(
    marks: &[u8],
    frame: Frame,
    parents: &mut [u32],
    queue: &mut [u32],
    out: &mut [u32],
    start: usize,
    end: usize,
) -> Option<usize>
    requires areas { Areas frame.width frame.height marks.now parents.old queue.old }
    requires window { Window frame × (size frame ≤ length out.old) }
    requires ends { (start < size frame) × (end < size frame) }
    requires blank { Blank (size frame) parents.old × Blank (size frame) queue.old }
    ensures { Searched (Clear marks.now frame) (spot frame start) (spot frame end) parents.old parents.new queue.old queue.new out.old out.new result }
{
    if !opens(marks, frame, start, end) {
        return None;
    }
    let field = Field {
        marks,
        width: frame.width,
        height: frame.height,
    };
    let ended = search::seek(field, parents, queue, start, end);
    let points = tell(parents, out, frame, start, end, ended.found);
    tidy(parents, queue, ended.used);
    points
}

// Whether a chain leads from one place to the other. The working areas come as zeros and end as zeros.
fn chain_places(
    marks: &[u8],
    frame: Frame,
    parents: &mut [u32],
    queue: &mut [u32],
    start: usize,
    end: usize,
) -> bool
    requires areas { Areas frame.width frame.height marks.now parents.old queue.old }
    requires ends { (start < size frame) × (end < size frame) }
    requires blank { Blank (size frame) parents.old × Blank (size frame) queue.old }
    ensures { Asked (Unmarked marks.now frame.width frame.height) (center frame.width start) (center frame.width end) parents.old parents.new queue.old queue.new result }
{
    if !opens(marks, frame, start, end) {
        return false;
    }
    let field = Field {
        marks,
        width: frame.width,
        height: frame.height,
    };
    let ended = search::seek(field, parents, queue, start, end);
    tidy(parents, queue, ended.used);
    ended.found
}

// The place of a position in the frame.
fn local_index(position: PixelPosition, frame: Frame) -> usize
    requires { Window frame × Inside frame position }
    ensures { (result < size frame) × (spot frame result ≡ position) }
{
    let x = wide(position.x) - frame.left as usize;
    let y = wide(position.y) - frame.top as usize;
    y * frame.width + x
}

// Whether the center at p is free, by the window's marks.
pub fn is_clear(marks: &[u8], frame: Frame, p: PixelPosition) -> bool
    requires { Window frame × Inside frame p × (size frame ≤ length marks.now) }
    ensures { Says result (Clear marks.now frame p.x p.y) }
{
    marks::mark(marks, local_index(p, frame)) == 0
}

// The number of points of the route from `start` to `end` in the frame, by its marks, if there is one. Its words stand first
// in `out`. The working areas come as zeros, and are left as they came: a blocked end is seen before anything is written, and
// only what a search used is cleared after it.
pub fn find_route(
    marks: &[u8],
    frame: Frame,
    parents: &mut [u32],
    queue: &mut [u32],
    out: &mut [u32],
    start: PixelPosition,
    end: PixelPosition,
) -> Option<usize>
    requires window { Window frame × Inside frame start × Inside frame end }
    requires lent { Lent frame marks.now parents.old queue.old × (size frame ≤ length out.old) }
    requires blank { Blank (size frame) parents.old × Blank (size frame) queue.old }
    ensures { Searched (Clear marks.now frame) start end parents.old parents.new queue.old queue.new out.old out.new result }
{
    let n = frame.width * frame.height;
    let s = local_index(start, frame);
    let e = local_index(end, frame);
    route_places(marks, frame, &mut parents[..n], &mut queue[..n], out, s, e)
}

// Whether a chain joins the ends, both free. The working areas come as zeros, and are left as they came.
pub fn find_chain(
    marks: &[u8],
    frame: Frame,
    parents: &mut [u32],
    queue: &mut [u32],
    start: PixelPosition,
    end: PixelPosition,
) -> bool
    requires window { Window frame × Inside frame start × Inside frame end }
    requires lent { Lent frame marks.now parents.old queue.old }
    requires blank { Blank (size frame) parents.old × Blank (size frame) queue.old }
    ensures { Asked (Clear marks.now frame) start end parents.old parents.new queue.old queue.new result }
{
    let n = frame.width * frame.height;
    let s = local_index(start, frame);
    let e = local_index(end, frame);
    chain_places(marks, frame, &mut parents[..n], &mut queue[..n], s, e)
}

// The same as find_route with working areas that come with anything and end as zeros as far as the frame has centers.
pub fn route(
    marks: &[u8],
    frame: Frame,
    parents: &mut [u32],
    queue: &mut [u32],
    out: &mut [u32],
    start: PixelPosition,
    end: PixelPosition,
) -> Option<usize>
    requires window { Window frame × Inside frame start × Inside frame end }
    requires lent { Lent frame marks.now parents.old queue.old × (size frame ≤ length out.old) }
    ensures { Searched (Clear marks.now frame) start end (cleared (size frame) parents.old) parents.new (cleared (size frame) queue.old) queue.new out.old out.new result }
{
    let n = frame.width * frame.height;
    parents[..n].fill(0);
    queue[..n].fill(0);
    find_route(marks, frame, parents, queue, out, start, end)
}

// The same as find_chain with working areas that come with anything and end as zeros as far as the frame has centers.
pub fn connected(
    marks: &[u8],
    frame: Frame,
    parents: &mut [u32],
    queue: &mut [u32],
    start: PixelPosition,
    end: PixelPosition,
) -> bool
    requires window { Window frame × Inside frame start × Inside frame end }
    requires lent { Lent frame marks.now parents.old queue.old }
    ensures { Asked (Clear marks.now frame) start end (cleared (size frame) parents.old) parents.new (cleared (size frame) queue.old) queue.new result }
{
    let n = frame.width * frame.height;
    parents[..n].fill(0);
    queue[..n].fill(0);
    find_chain(marks, frame, parents, queue, start, end)
}
