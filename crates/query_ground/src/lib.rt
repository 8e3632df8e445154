// When the ground is refused: 1 to 7, in the table's order. One stage a function.
#![tactic(auto)]

ghost use Rattle.std.specs.Prelude.{◌≡◌};
ghost use Rattle.model.specs.Refusal.{given, first, hollow, size_lines, faulty, cell_lines, obstacle_lines};
ghost use Rattle.query_ground.specs.Searches.{FirstFault, hollow_lines};

use model::{PixelRect, WallError};

const MAX_CELLS_PER_AXIS: u32 = 1024;

const MAX_OBSTACLES: usize = 8192;

// 1 and 2. The axes are bounded before they are multiplied.
pub fn validate_size(width: u32, height: u32, cells: &[u8]) -> Result<(), WallError>
    ensures { given result ≡ first (size_lines width height cells.now) }
{
    if ((width == 0) | (width > MAX_CELLS_PER_AXIS))
        | ((height == 0) | (height > MAX_CELLS_PER_AXIS))
    {
        return Err(WallError::InvalidGridDimensions { width, height });
    }
    let expected = width as usize * height as usize;
    let actual = cells.len();
    if actual != expected {
        return Err(WallError::CellLength {
            width,
            height,
            expected,
            actual,
        });
    }
    Ok(())
}

// The place of the first faulty cell.
fn first_fault(cells: &[u8]) -> Option<usize>
    ensures { FirstFault cells.now result }
{
    cells
        .iter()
        .position(|cell| (*cell >= 32) | (*cell / 2 % 4 == 3))
}

// 3 and 4. The first faulty cell decides, whichever fault it has.
pub fn validate_cells(cells: &[u8]) -> Result<(), WallError>
    ensures { given result ≡ first (cell_lines cells.now (faulty cells.now)) }
{
    let Some(index) = first_fault(cells) else {
        return Ok(());
    };
    let cell = cells[index];
    if cell >= 32 {
        return Err(WallError::BadCell { index });
    }
    Err(WallError::InvalidElevation {
        index,
        elevation: cell / 2 % 4,
    })
}

// Whether a rectangle is empty or inverted.
pub fn is_hollow(r: PixelRect) -> bool
    ensures { result ≡ hollow r }
{
    (r.left >= r.right) | (r.top >= r.bottom)
}

// 7.
fn validate_rects(words: &[i32]) -> Result<(), WallError>
    ensures { given result ≡ first (hollow_lines words.now) }
{
    for index in 0..words.len() / 4 {
        let obstacle = boxes::obstacle_at(words, index);
        if is_hollow(obstacle) {
            return Err(WallError::InvalidObstacle { index });
        }
    }
    Ok(())
}

// 5 to 7.
pub fn validate_obstacles(words: &[i32]) -> Result<(), WallError>
    ensures { given result ≡ first (obstacle_lines words.now) }
{
    let length = words.len();
    if length % 4 != 0 {
        return Err(WallError::ObstacleWords { length });
    }
    let actual = length / 4;
    if actual > MAX_OBSTACLES {
        return Err(WallError::TooManyObstacles { actual });
    }
    validate_rects(words)
}
