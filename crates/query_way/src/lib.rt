// When the mover, the number of buildings, the window or an end is refused: 8 to 13, in the table's order. One stage a function.
#![tactic(auto)]

ghost use Rattle.std.specs.Prelude.{◌≡◌, pos};
ghost use Rattle.model.specs.Boxes.{holds};
ghost use Rattle.model.specs.Refusal.{given, first, wide, mover_lines, count_lines, window_lines, end_lines};

use model::{CollisionBounds, PixelPosition, PixelRect, WallEndpoint, WallError};

const MAX_COLLISION_EXTENT: u32 = 8192;

const MAX_BUILDINGS: usize = 32;

const MAX_WINDOW_AXIS: usize = 1024;

const MAX_WINDOW_CENTERS: usize = 1048576;

// Whether an extent is above its cap.
pub fn is_wide(e: CollisionBounds) -> bool
    ensures { result ≡ wide e }
{
    (e.left > MAX_COLLISION_EXTENT)
        | (e.top > MAX_COLLISION_EXTENT)
        | (e.right > MAX_COLLISION_EXTENT)
        | (e.bottom > MAX_COLLISION_EXTENT)
}

// 8.
pub fn validate_mover(mover: CollisionBounds) -> Result<(), WallError>
    ensures { given result ≡ first (mover_lines mover) }
{
    if is_wide(mover) {
        return Err(WallError::MoverExtentTooLarge);
    }
    Ok(())
}

// 9.
pub fn validate_count(actual: usize) -> Result<(), WallError>
    ensures { given result ≡ first (count_lines actual) }
{
    if actual > MAX_BUILDINGS {
        return Err(WallError::TooManyBuildings { actual });
    }
    Ok(())
}

// 10 to 12.
pub fn validate_window(map_width: u32, map_height: u32, window: PixelRect) -> Result<(), WallError>
    ensures { given result ≡ first (window_lines map_width map_height window) }
{
    let hollow = query_ground::is_hollow(window);
    let inside = boxes::rect_in_map(window, map_width, map_height);
    if hollow | !inside {
        return Err(WallError::InvalidWindow);
    }
    let width = boxes::width(window);
    let height = boxes::height(window);
    if (width > MAX_WINDOW_AXIS) | (height > MAX_WINDOW_AXIS) {
        return Err(WallError::WindowTooLarge { width, height });
    }
    let centers = width * height;
    if centers > MAX_WINDOW_CENTERS {
        return Err(WallError::TooManyCenters { centers });
    }
    Ok(())
}

// Whether the window holds the center.
fn window_holds(window: PixelRect, p: PixelPosition) -> bool
    ensures { result ≡ holds window (pos p.x) (pos p.y) }
{
    (window.left as i64 <= p.x as i64)
        & ((p.x as i64) < window.right as i64)
        & (window.top as i64 <= p.y as i64)
        & ((p.y as i64) < window.bottom as i64)
}

// 13, start before end.
pub fn validate_ends(
    window: PixelRect,
    start: PixelPosition,
    end: PixelPosition,
) -> Result<(), WallError>
    ensures { given result ≡ first (end_lines window start end) }
{
    if !window_holds(window, start) {
        return Err(WallError::EndpointOutsideWindow {
            endpoint: WallEndpoint::Start,
            x: start.x,
            y: start.y,
        });
    }
    if !window_holds(window, end) {
        return Err(WallError::EndpointOutsideWindow {
            endpoint: WallEndpoint::End,
            x: end.x,
            y: end.y,
        });
    }
    Ok(())
}
