// The unwalkable cells, stamped into a difference grid of the window's centers: only those that the mover can reach from the window are looked at, and a
// run of them in one row is stamped as one rectangle.
#![tactic(auto)]

ghost use Rattle.std.specs.Prelude.{◌≡◌, ◌*◌, ◌^◌, ◌<◌, ◌≤◌, length};
ghost use Rattle.model.specs.Refusal.{caps};
ghost use Rattle.stamps.specs.Stamps.{Framed, Adds, stops};
ghost use Rattle.terrain.specs.Terrain.{NextCell, run_stops, line_stops, reach_of, unwalkable};

use model::CollisionBounds;
use stamps::{CARRY, Frame, PIXELS_PER_WALK_CELL, Raised, Span};

// The first place from at on whose cell's walkable bit is as wanted; the cells' end where there is none.
fn next_cell(cells: &[u8], at: usize, wanted: u8) -> usize
    requires { at ≤ length cells.now }
    ensures { NextCell cells.now at (length cells.now) wanted result }
{
    for i in at..cells.len() {
        if cells[i] / 16 % 2 == wanted {
            return i;
        }
    }
    cells.len()
}

// Stamps the cells from column from up to to of a row, as one rectangle: what it stops is what one of its cells stops.
fn stamp_run(
    grid: &mut [u32],
    frame: Frame,
    mover: CollisionBounds,
    row: usize,
    from: usize,
    to: usize,
)
    requires framed { Framed frame grid.old }
    requires row_bound { (row < 2 ^ 32) × (to < 2 ^ 32) }
    ensures { Adds frame.width frame.height 1 (run_stops frame mover row from to) grid.old grid.new }
{
    if from >= to {
        return;
    }
    let top = CARRY + PIXELS_PER_WALK_CELL * row as u64;
    let run = Raised {
        left: CARRY + PIXELS_PER_WALK_CELL * from as u64,
        top,
        right: CARRY + PIXELS_PER_WALK_CELL * to as u64,
        bottom: top + PIXELS_PER_WALK_CELL,
    };
    stamps::stamp_expanded(grid, frame, mover, run);
}

// Stamps the unwalkable cells of a row from column first on, run by run.
fn stamp_row(
    grid: &mut [u32],
    frame: Frame,
    mover: CollisionBounds,
    cells: &[u8],
    row: usize,
    first: usize,
)
    requires framed { Framed frame grid.old }
    requires row_bound { (row < 2 ^ 32) × (first ≤ length cells.now) × (length cells.now < 2 ^ 32) }
    ensures { Adds frame.width frame.height (length cells.now) (line_stops frame mover cells.now row first (length cells.now)) grid.old grid.new }
{
    let mut column = first;
    while column < cells.len() {
        let from = next_cell(cells, column, 0);
        let to = next_cell(cells, from, 1);
        stamp_run(grid, frame, mover, row, from, to);
        column = to;
    }
}

// The columns or rows of cells, of so many, that the mover reaches from the centers of the window.
fn reach(start: u64, size: usize, before: u32, after: u32, cells: usize) -> Span
    requires { (start < 2 ^ 62) × (size < 2 ^ 31) }
    ensures { result ≡ reach_of start size before after cells }
{
    let first = start.saturating_sub(before as u64) / PIXELS_PER_WALK_CELL;
    let past = (start + size as u64 + after as u64 + 7) / PIXELS_PER_WALK_CELL;
    let to = past.min(cells as u64);
    Span {
        from: first.min(to) as usize,
        to: to as usize,
    }
}

// Stamps the unwalkable cells. Only the rows and columns within reach of the window are looked at: the others stop the mover nowhere in it.
pub fn stamp_terrain_blockers(
    grid: &mut [u32],
    frame: Frame,
    mover: CollisionBounds,
    cells: &[u8],
    width: usize,
    height: usize,
)
    requires framed { Framed frame grid.old }
    requires width_le_cells { (width ≤ caps.cells) × (height ≤ caps.cells) × (length cells.now ≡ width * height) }
    ensures { Adds frame.width frame.height (caps.cells * caps.cells) (stops frame mover (unwalkable width cells.now)) grid.old grid.new }
{
    let columns = reach(frame.left, frame.width, mover.left, mover.right, width);
    let rows = reach(frame.top, frame.height, mover.top, mover.bottom, height);
    for row in rows.from..rows.to {
        let start = row * width;
        let reached = &cells[start..start + columns.to];
        stamp_row(grid, frame, mover, reached, row, columns.from);
    }
}
