// The issues of one building, as words that stand first in a lent area: of the map's edge and the terrain, of the obstacles, of the other buildings.
#![tactic(auto)]

ghost use Rattle.std.specs.Prelude.{◌≡◌, not, ◌&&◌, ◌*◌, ◌≤◌, ◌<◌, length, Some};
ghost use Rattle.model.specs.Boxes.{in_map, footprint_box};
ghost use Rattle.model.specs.Ground.{rects, built};
ghost use Rattle.model.specs.Refusal.{geometry_of, caps};
ghost use Rattle.footprints.specs.Cells.{bad_under, non_empty};
ghost use Rattle.model.specs.Accepted.{Fitting, boxes_of};
ghost use Rattle.placement_issues.specs.Words.{Put, ground_words, obstacle_words, building_words};

use issue_words::PlacementIssue;
use model::{BuildingGeometry, PixelRect, Plan, WallBuilding};

// Both boxes of a building that validation has passed: i32 holds them.
pub fn boxes_of(b: WallBuilding) -> BuildingGeometry
    requires { geometry_of b ≡ Some (boxes_of b) }
    ensures { result ≡ boxes_of b }
{
    boxes::building_geometry(b).unwrap()
}

// Whether one of a building's boxes leaves the map.
fn out_of_map(width: u32, height: u32, boxes: BuildingGeometry) -> bool
    ensures { result ≡ not (in_map width height boxes.footprint && in_map width height boxes.collision) }
{
    !(boxes::rect_in_map(boxes.footprint, width, height)
        && boxes::rect_in_map(boxes.collision, width, height))
}

// Whether a building's footprint is in the map and has a bad cell.
fn on_bad_terrain(
    width: u32,
    height: u32,
    cells: &[u8],
    b: WallBuilding,
    footprint: PixelRect,
) -> bool
    requires cells { length cells.now ≡ width * height }
    requires footprint { footprint ≡ footprint_box b }
    ensures { result ≡ in_map width height (footprint_box b) && non_empty (bad_under width cells.now b) }
{
    let inside = boxes::rect_in_map(footprint, width, height);
    inside && !footprints::footprint_buildable(width, cells, b)
}

// Writes OutOfMap if one of the boxes leaves the map, and UnbuildableTerrain if the footprint is in it and has a bad cell.
pub fn ground_issues(
    width: u32,
    height: u32,
    cells: &[u8],
    b: WallBuilding,
    boxes: BuildingGeometry,
    building: usize,
    issues: &mut [u32],
) -> usize
    requires cells { length cells.now ≡ width * height }
    requires boxes { boxes ≡ boxes_of b }
    requires building { building < caps.buildings }
    requires room { length (ground_words width height cells.now building b) ≤ length issues.old }
    ensures { Put (ground_words width height cells.now building b) issues.old issues.new result }
{
    let mut count = 0;
    if out_of_map(width, height, boxes) {
        issues[count] = PlacementIssue::OutOfMap.word(building);
        count += 1;
    }
    if on_bad_terrain(width, height, cells, b, boxes.footprint) {
        issues[count] = PlacementIssue::UnbuildableTerrain.word(building);
        count += 1;
    }
    count
}

// Writes OverlapsObstacle for each obstacle that meets the footprint, index rising.
pub fn overlaps_obstacles(
    words: &[i32],
    footprint: PixelRect,
    building: usize,
    issues: &mut [u32],
) -> usize
    requires building { building < caps.buildings }
    requires few { length (rects words.now) ≤ caps.obstacles }
    requires room { length (obstacle_words building footprint (rects words.now)) ≤ length issues.old }
    ensures { Put (obstacle_words building footprint (rects words.now)) issues.old issues.new result }
{
    let mut count = 0;
    for i in 0..words.len() / 4 {
        if boxes::intersects(footprint, boxes::obstacle_at(words, i)) {
            issues[count] = PlacementIssue::OverlapsObstacle { index: i }.word(building);
            count += 1;
        }
    }
    count
}

// Writes OverlapsBuilding for each other building whose footprint meets this one, index rising.
pub fn overlaps_buildings(
    plan: Plan,
    footprint: PixelRect,
    building: usize,
    issues: &mut [u32],
) -> usize
    requires building { building < caps.buildings }
    requires fitting { Fitting plan }
    requires room { length (building_words building footprint (built plan)) ≤ length issues.old }
    ensures { Put (building_words building footprint (built plan)) issues.old issues.new result }
{
    let mut count = 0;
    for i in 0..plan.count {
        let other = boxes_of(plan.buildings[i]);
        if i != building && boxes::intersects(footprint, other.footprint) {
            issues[count] = PlacementIssue::OverlapsBuilding { index: i }.word(building);
            count += 1;
        }
    }
    count
}
