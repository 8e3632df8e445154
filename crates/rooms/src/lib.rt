// 17: the first lent area that is too small. It runs after 1 to 16, so that the window and the counts are within their caps.
#![tactic(auto)]

ghost use Rattle.std.specs.Prelude.{◌≡◌, ◌≤◌, length};
ghost use Rattle.model.specs.Ground.{Ground, obstacles};
ghost use Rattle.model.specs.Refusal.{given, first};
ghost use Rattle.model.specs.Areas.{room_lines, difference_room, center_room};
ghost use Rattle.model.specs.Check.{CheckAreas, check_rooms};
ghost use Rattle.model.specs.RouteTest.{TestAreas, test_rooms};
ghost use Rattle.rooms.specs.Lengths.{lengths, Small};

use model::{PixelRect, Room, WallError, WallQuery};

// How many places each of the areas 2 to 8 has.
#[derive(Clone, Copy, Debug, PartialEq, Eq)]
pub struct Lent {
    pub issues: usize,
    pub base: usize,
    pub plan: usize,
    pub marks: usize,
    pub parents: usize,
    pub queue: usize,
    pub route: usize,
}

// The first of the areas that is too small.
pub fn room_too_small(rooms: &[Room]) -> Result<(), WallError>
    ensures { given result ≡ first (room_lines rooms.now) }
{
    for room in rooms {
        if room.has < room.needs {
            return Err(WallError::RoomTooSmall { area: room.area });
        }
    }
    Ok(())
}

// (w + 1)(h + 1) of a w by h window.
pub fn difference_room(window: PixelRect) -> usize
    requires { Small window }
    ensures { result ≡ difference_room window }
{
    let width = boxes::width(window);
    let height = boxes::height(window);
    (width + 1) * (height + 1)
}

// wh of a w by h window, which is at most 1,048,576.
pub fn center_room(window: PixelRect) -> usize
    requires { Small window }
    ensures { (result ≡ center_room window) × (result ≤ 1048576) }
{
    let width = boxes::width(window);
    let height = boxes::height(window);
    width * height
}

// 17 of a check with n obstacles.
pub fn check_room(query: WallQuery, n: usize, lent: Lent) -> Result<(), WallError>
    requires { Small query.window × ((n ≤ 8192) × (query.plan.count ≤ 32)) }
    ensures { (g : Ground) (a : CheckAreas) → n ≡ length (obstacles g) → lent ≡ lengths a → given result ≡ first (room_lines (check_rooms g query a)) }
{
    let plan = query.plan;
    let b = plan.count;
    let issues = b * (n + b + 1);
    let differences = difference_room(query.window);
    let centers = center_room(query.window);
    let areas = [
        Room {
            area: 2,
            has: lent.issues,
            needs: issues,
        },
        Room {
            area: 3,
            has: lent.base,
            needs: differences,
        },
        Room {
            area: 4,
            has: lent.plan,
            needs: differences,
        },
        Room {
            area: 5,
            has: lent.marks,
            needs: 2 * centers,
        },
        Room {
            area: 6,
            has: lent.parents,
            needs: centers,
        },
        Room {
            area: 7,
            has: lent.queue,
            needs: centers,
        },
        Room {
            area: 8,
            has: lent.route,
            needs: centers,
        },
    ];
    room_too_small(&areas)
}

// 17 of a route test: areas 3 to 5 alone.
pub fn test_room(query: WallQuery, base: usize, plan: usize, marks: usize) -> Result<(), WallError>
    requires { Small query.window }
    ensures { (a : TestAreas) → base ≡ length a.base → plan ≡ length a.plan → marks ≡ length a.marks → given result ≡ first (room_lines (test_rooms query a)) }
{
    let differences = difference_room(query.window);
    let centers = center_room(query.window);
    let areas_3_to_5 = [
        Room {
            area: 3,
            has: base,
            needs: differences,
        },
        Room {
            area: 4,
            has: plan,
            needs: differences,
        },
        Room {
            area: 5,
            has: marks,
            needs: 2 * centers,
        },
    ];
    room_too_small(&areas_3_to_5)
}
