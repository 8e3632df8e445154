// Blockers stamped into a difference grid of the window's centers: a blocker is widened by the mover first, and then clipped to the window. The map's
// edge is stamped too, so that a center where the mover's box leaves the map is covered like any other that is blocked.
#![tactic(auto)]

ghost use Rattle.std.specs.Prelude.{◌≡◌, ◌^◌, ◌<◌, ◌≤◌};
ghost use Rattle.model.specs.declared.PixelRect.{PixelRect};
ghost use Rattle.model.specs.Refusal.{caps};
ghost use Rattle.stamps.specs.Stamps.{Framed, Adds, Carried, clipped, stop, inner_of, outside, leaves};

use model::CollisionBounds;

// Coordinates are carried up by this much, so that none that a blocker can have is negative.
pub const CARRY: u64 = 4294967296;

// Pixels along a side of a walk cell.
pub const PIXELS_PER_WALK_CELL: u64 = 8;

// The window's corner and its size in centers.
#[derive(Clone, Copy, Debug, PartialEq, Eq)]
pub struct Frame {
    pub left: u64,
    pub top: u64,
    pub width: usize,
    pub height: usize,
}

// A rectangle carried up by 2^32 along both axes.
#[derive(Clone, Copy, Debug, PartialEq, Eq)]
pub struct Raised {
    pub left: u64,
    pub top: u64,
    pub right: u64,
    pub bottom: u64,
}

// From one offset up to, not including, another.
#[derive(Clone, Copy, Debug, PartialEq, Eq)]
pub struct Span {
    pub from: usize,
    pub to: usize,
}

// The centers of one axis at which a body [x - before, x + after + 1) meets the blocker [lo, hi): x is in [lo - after, hi + before).
fn clip(lo: u64, hi: u64, before: u32, after: u32, start: u64, size: usize) -> Span
    requires { (hi < 2 ^ 62) × (start < 2 ^ 62) }
    ensures { result ≡ clipped lo hi before after start size }
{
    let from = lo.saturating_sub(CARRY + after as u64 + start);
    let to = (hi + before as u64).saturating_sub(CARRY + start);
    Span {
        from: from as usize,
        to: to.min(size as u64) as usize,
    }
}

// Stamps the centers at which the blocker stops the mover. What lies beyond the window is cut off only after it is widened.
pub fn stamp_expanded(grid: &mut [u32], frame: Frame, mover: CollisionBounds, blocker: Raised)
    requires framed { Framed frame grid.old }
    requires right_bound { (blocker.right < 2 ^ 62) × (blocker.bottom < 2 ^ 62) }
    ensures { (b : PixelRect) → Carried b blocker → Adds frame.width frame.height 1 (stop frame mover b) grid.old grid.new }
{
    let columns = clip(
        blocker.left,
        blocker.right,
        mover.left,
        mover.right,
        frame.left,
        frame.width,
    );
    let rows = clip(
        blocker.top,
        blocker.bottom,
        mover.top,
        mover.bottom,
        frame.top,
        frame.height,
    );
    grid::add_rect(
        grid,
        frame.width + 1,
        columns.from,
        rows.from,
        columns.to,
        rows.to,
    );
}

// The centers of one axis at which the mover lies within the map, which is so many cells long.
fn inner(start: u64, size: usize, before: u32, after: u32, cells: usize) -> Span
    requires { (start < 2 ^ 62) × (cells < 2 ^ 32) }
    ensures { result ≡ inner_of start size before after cells }
{
    let first = (before as u64).saturating_sub(start);
    let past = (PIXELS_PER_WALK_CELL * cells as u64).saturating_sub(after as u64 + start);
    Span {
        from: first.min(size as u64) as usize,
        to: past as usize,
    }
}

// Stamps the centers of the window outside the columns and rows.
fn stamp_outside(grid: &mut [u32], frame: Frame, columns: Span, rows: Span)
    requires framed { Framed frame grid.old }
    requires from_le_size { (columns.from ≤ frame.width) × (rows.from ≤ frame.height) }
    ensures { Adds frame.width frame.height 4 (outside columns rows) grid.old grid.new }
{
    let width = frame.width;
    let height = frame.height;
    let stride = width + 1;
    grid::add_rect(grid, stride, 0, 0, columns.from, height);
    grid::add_rect(grid, stride, columns.to, 0, width, height);
    grid::add_rect(grid, stride, 0, 0, width, rows.from);
    grid::add_rect(grid, stride, 0, rows.to, width, height);
}

// Stamps the centers at which the mover's box leaves the map.
pub fn stamp_map_edge(
    grid: &mut [u32],
    frame: Frame,
    mover: CollisionBounds,
    width: usize,
    height: usize,
)
    requires framed { Framed frame grid.old }
    requires width_le_cells { (width ≤ caps.cells) × (height ≤ caps.cells) }
    ensures { Adds frame.width frame.height 4 (leaves frame mover width height) grid.old grid.new }
{
    let columns = inner(frame.left, frame.width, mover.left, mover.right, width);
    let rows = inner(frame.top, frame.height, mover.top, mover.bottom, height);
    stamp_outside(grid, frame, columns, rows);
}
