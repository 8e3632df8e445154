// A refusal's number and values in document 01's table.
#![tactic(auto)]

ghost use Rattle.std.specs.Prelude.{◌≡◌};
ghost use Rattle.model.specs.Refusal.{refusal};
ghost use Rattle.model.specs.Words.{value_words};

use model::WallError;

// The refusal's number in document 01's table.
pub fn number(e: WallError) -> usize
    ensures { result ≡ (refusal e).number }
{
    match e {
        WallError::InvalidGridDimensions { .. } => 1,
        WallError::CellLength { .. } => 2,
        WallError::BadCell { .. } => 3,
        WallError::InvalidElevation { .. } => 4,
        WallError::ObstacleWords { .. } => 5,
        WallError::TooManyObstacles { .. } => 6,
        WallError::InvalidObstacle { .. } => 7,
        WallError::MoverExtentTooLarge => 8,
        WallError::TooManyBuildings { .. } => 9,
        WallError::InvalidWindow => 10,
        WallError::WindowTooLarge { .. } => 11,
        WallError::TooManyCenters { .. } => 12,
        WallError::EndpointOutsideWindow { .. } => 13,
        WallError::InvalidFootprint { .. } => 14,
        WallError::CollisionExtentTooLarge { .. } => 15,
        WallError::CoordinateOverflow { .. } => 16,
        WallError::RoomTooSmall { .. } => 17,
        WallError::PackedShort => 18,
        WallError::PackedTail => 19,
        WallError::ProgramLimit => 20,
    }
}

// The refusal's values in the table's order, with zeros behind them.
pub fn values(e: WallError) -> [u64; 4]
    ensures { result ≡ value_words (refusal e) }
{
    match e {
        WallError::InvalidGridDimensions { width, height } => [width as u64, height as u64, 0, 0],
        WallError::CellLength {
            width,
            height,
            expected,
            actual,
        } => [width as u64, height as u64, expected as u64, actual as u64],
        WallError::BadCell { index } => [index as u64, 0, 0, 0],
        WallError::InvalidElevation { index, elevation } => [index as u64, elevation as u64, 0, 0],
        WallError::ObstacleWords { length } => [length as u64, 0, 0, 0],
        WallError::TooManyObstacles { actual } => [actual as u64, 0, 0, 0],
        WallError::InvalidObstacle { index } => [index as u64, 0, 0, 0],
        WallError::MoverExtentTooLarge => [0, 0, 0, 0],
        WallError::TooManyBuildings { actual } => [actual as u64, 0, 0, 0],
        WallError::InvalidWindow => [0, 0, 0, 0],
        WallError::WindowTooLarge { width, height } => [width as u64, height as u64, 0, 0],
        WallError::TooManyCenters { centers } => [centers as u64, 0, 0, 0],
        WallError::EndpointOutsideWindow { endpoint, x, y } => {
            [endpoint as u64, x as u64, y as u64, 0]
        }
        WallError::InvalidFootprint {
            index,
            width_tiles,
            height_tiles,
        } => [index as u64, width_tiles as u64, height_tiles as u64, 0],
        WallError::CollisionExtentTooLarge { index } => [index as u64, 0, 0, 0],
        WallError::CoordinateOverflow { index } => [index as u64, 0, 0, 0],
        WallError::RoomTooSmall { area } => [area as u64, 0, 0, 0],
        WallError::PackedShort => [0, 0, 0, 0],
        WallError::PackedTail => [0, 0, 0, 0],
        WallError::ProgramLimit => [0, 0, 0, 0],
    }
}
