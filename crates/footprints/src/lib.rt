// The cells under a building: the first on which it cannot stand, and whether there is one.
#![tactic(auto)]

ghost use Rattle.std.specs.Prelude.{◌≡◌, not, ◌&&◌, ◌≤◌, length};
ghost use Rattle.model.specs.Ground.{walkable, buildable};
ghost use Rattle.footprints.specs.Cells.{FirstUnfit, Covers, bad_under, head, non_empty};

use model::WallBuilding;

// A tile is 32 pixels, a cell 8.
const CELLS_PER_TILE: usize = 4;

// Whether a building can stand on the cell: it is walkable and buildable.
fn fit(cell: u8) -> bool
    ensures { result ≡ walkable cell && buildable cell }
{
    (cell / 16 % 2 == 1) & (cell / 8 % 2 == 1)
}

// The first of the cells from one place up to another on which no building can stand.
fn first_unfit(cells: &[u8], from: usize, to: usize) -> Option<usize>
    requires { to ≤ length cells.now }
    ensures { FirstUnfit cells.now from to result }
{
    (from..to).find(|&i| !fit(cells[i]))
}

// The first bad cell under a building whose cells are in the map, by rows and then from the left.
pub fn first_bad_cell(width: u32, cells: &[u8], b: WallBuilding) -> Option<usize>
    requires { Covers width cells.now b }
    ensures { result ≡ head (bad_under width cells.now b) }
{
    let w = width as usize;
    let left = CELLS_PER_TILE * b.tile.x as usize;
    let right = left + CELLS_PER_TILE * b.footprint.width_tiles as usize;
    let top = CELLS_PER_TILE * b.tile.y as usize;
    let bottom = top + CELLS_PER_TILE * b.footprint.height_tiles as usize;
    for y in top..bottom {
        let row = y * w;
        if let Some(i) = first_unfit(cells, row + left, row + right) {
            return Some(i);
        }
    }
    None
}

// Whether a building can stand on every cell under it, all in the map.
pub fn footprint_buildable(width: u32, cells: &[u8], b: WallBuilding) -> bool
    requires { Covers width cells.now b }
    ensures { result ≡ not (non_empty (bad_under width cells.now b)) }
{
    first_bad_cell(width, cells, b).is_none()
}
