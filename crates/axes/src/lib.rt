// A building's sides on one axis.
#![tactic(auto)]

ghost use Rattle.std.specs.Prelude.{◌≡◌};
ghost use Rattle.axes.specs.Axes.{axis_of};

// The sides of a building's footprint (left, right) and collision box (low, high) on one axis.
#[derive(Clone, Copy, Debug, PartialEq, Eq)]
pub struct Sides {
    pub left: i32,
    pub right: i32,
    pub low: i32,
    pub high: i32,
}

// A building's sides on one axis, from its tile, its size in tiles and its extents; none where one of them is outside i32.
pub fn building_axis(tile: u32, size: u32, back: u32, ahead: u32) -> Option<Sides>
    ensures { result ≡ axis_of tile size back ahead }
{
    let left = 32 * tile as u64;
    let right = left + 32 * size as u64;
    let center = left + 16 * size as u64;
    let high = center + ahead as u64 + 1;
    // By numbers, so that a trial moves each bound by one; `i32::try_from` has none to move.
    if right > 2147483647 {
        return None;
    }
    if high > 2147483647 {
        return None;
    }
    if back as u64 > center + 2147483648 {
        return None;
    }
    Some(Sides {
        left: left as i32,
        right: right as i32,
        low: (center as i64 - back as i64) as i32,
        high: high as i32,
    })
}
