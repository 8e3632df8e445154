// Rectangle tests, and a building's two boxes.
#![tactic(auto)]

ghost use Rattle.std.specs.Prelude.{◌≡◌, ◌+◌, ◌*◌, ◌≤◌, nat_abs, ◌-ℤ◌, length, get_or};
ghost use Rattle.model.specs.Boxes.{meets, in_map, width_of, height_of};
ghost use Rattle.model.specs.Check.{no_rect};
ghost use Rattle.model.specs.Ground.{rects};
ghost use Rattle.model.specs.Refusal.{geometry_of};

use model::{BuildingGeometry, PixelRect, WallBuilding};

// Whether the two share a point. Touching sides share none.
pub fn intersects(a: PixelRect, b: PixelRect) -> bool
    ensures { result ≡ meets a b }
{
    (a.left < b.right) & (b.left < a.right) & (a.top < b.bottom) & (b.top < a.bottom)
}

// Whether the rectangle lies within a map of width by height walk cells, 8 pixels each.
pub fn rect_in_map(rect: PixelRect, width: u32, height: u32) -> bool
    ensures { result ≡ in_map width height rect }
{
    (0 <= rect.left)
        & (0 <= rect.top)
        & (rect.right as i64 <= (8 * width as u64) as i64)
        & (rect.bottom as i64 <= (8 * height as u64) as i64)
}

// How far apart the two sides are.
fn extent(low: i32, high: i32) -> usize
    ensures { result ≡ nat_abs (high -ℤ low) }
{
    high.abs_diff(low) as usize
}

// How wide a rectangle is that is not inverted.
pub fn width(rect: PixelRect) -> usize
    ensures { result ≡ width_of rect }
{
    extent(rect.left, rect.right)
}

// How high it is.
pub fn height(rect: PixelRect) -> usize
    ensures { result ≡ height_of rect }
{
    extent(rect.top, rect.bottom)
}

// Obstacle i, from its four words.
pub fn obstacle_at(words: &[i32], i: usize) -> PixelRect
    requires { 4 * i + 4 ≤ length words.now }
    ensures { result ≡ get_or (rects words.now) i no_rect }
{
    let at = 4 * i;
    PixelRect {
        left: words[at],
        top: words[at + 1],
        right: words[at + 2],
        bottom: words[at + 3],
    }
}

// Both boxes of a building, whatever its numbers are; none where a side of one of them is outside i32.
pub fn building_geometry(b: WallBuilding) -> Option<BuildingGeometry>
    ensures { result ≡ geometry_of b }
{
    let x = axes::building_axis(
        b.tile.x,
        b.footprint.width_tiles,
        b.collision.left,
        b.collision.right,
    )?;
    let y = axes::building_axis(
        b.tile.y,
        b.footprint.height_tiles,
        b.collision.top,
        b.collision.bottom,
    )?;
    Some(BuildingGeometry {
        footprint: PixelRect {
            left: x.left,
            top: y.left,
            right: x.right,
            bottom: y.right,
        },
        collision: PixelRect {
            left: x.low,
            top: y.low,
            right: x.high,
            bottom: y.high,
        },
    })
}
