// How many blockers stop a mover at each center of the window: those of the ground, which are the map's edge, the unwalkable cells and the obstacles,
// in one grid, and the plan's collision boxes in another.
#![tactic(auto)]

ghost use Rattle.std.specs.Prelude.{◌≡◌, map, ◌+◌, ◌*◌, ◌^◌, ◌<◌, ◌≤◌, length, ℕ, Bool, List};
ghost use Rattle.std.specs.Fn.{FnOnceReturnsAtMut};
ghost use Rattle.numbers.specs.Integers.{up, dn};
ghost use Rattle.model.specs.Boxes.{collision_box};
ghost use Rattle.model.specs.Ground.{seen, rects, built};
ghost use Rattle.model.specs.Refusal.{caps};
ghost use Rattle.stamps.specs.Stamps.{Framed, Adds, Counted, stop, stops};
ghost use Rattle.counts.specs.Counts.{Lifted, Surveyed, blocked_before, ground_cap};

use model::{CollisionBounds, Ground, PixelRect, Plan, WallBuilding};
use stamps::{CARRY, Frame, Raised};

// A coordinate carried up.
fn carried(x: i32) -> u64
    ensures { result + dn x ≡ 2 ^ 32 + up x }
{
    (x as i64 + CARRY as i64) as u64
}

// A rectangle carried up.
fn raised(rect: PixelRect) -> Raised
    ensures { Lifted rect result }
{
    Raised {
        left: carried(rect.left),
        top: carried(rect.top),
        right: carried(rect.right),
        bottom: carried(rect.bottom),
    }
}

// Stamps the obstacles, which may lie off the map.
pub fn stamp_obstacles(grid: &mut [u32], frame: Frame, mover: CollisionBounds, words: &[i32])
    requires framed { Framed frame grid.old }
    requires words_len_bound { length words.now ≤ 4 * caps.obstacles }
    ensures { Adds frame.width frame.height caps.obstacles (stops frame mover (rects words.now)) grid.old grid.new }
{
    for i in 0..words.len() / 4 {
        let obstacle = boxes::obstacle_at(words, i);
        stamps::stamp_expanded(grid, frame, mover, raised(obstacle));
    }
}

// A building's collision box, carried up: it surrounds the center of the footprint as a mover's box does.
fn raised_collision(building: WallBuilding) -> Raised
    ensures { Lifted (collision_box building) result }
{
    let tile = building.tile;
    let footprint = building.footprint;
    let collision = building.collision;
    let x = CARRY + 32 * tile.x as u64 + 16 * footprint.width_tiles as u64;
    let y = CARRY + 32 * tile.y as u64 + 16 * footprint.height_tiles as u64;
    Raised {
        left: x - collision.left as u64,
        top: y - collision.top as u64,
        right: x + collision.right as u64 + 1,
        bottom: y + collision.bottom as u64 + 1,
    }
}

// Stamps a building's collision box.
pub fn stamp_building(
    grid: &mut [u32],
    frame: Frame,
    mover: CollisionBounds,
    building: WallBuilding,
)
    requires { Framed frame grid.old }
    ensures { Adds frame.width frame.height 1 (stop frame mover (collision_box building)) grid.old grid.new }
{
    let body = raised_collision(building);
    stamps::stamp_expanded(grid, frame, mover, body);
}

// Stamps the plan's buildings, badly placed ones too.
pub fn stamp_plan(grid: &mut [u32], frame: Frame, mover: CollisionBounds, plan: Plan)
    requires framed { Framed frame grid.old }
    requires count_le_buildings { plan.count ≤ caps.buildings }
    ensures { Adds frame.width frame.height caps.buildings (stops frame mover (map collision_box (built plan))) grid.old grid.new }
{
    for building in &plan.buildings[..plan.count] {
        stamp_building(grid, frame, mover, *building);
    }
}

// Stamps what stops a mover before the plan.
fn stamp_ground(grid: &mut [u32], frame: Frame, mover: CollisionBounds, ground: Ground<'_>)
    requires framed { Framed frame grid.old }
    requires surveyed { Surveyed (seen ground) }
    ensures { Adds frame.width frame.height ground_cap (blocked_before (seen ground.entry) frame mover) grid.old grid.new }
{
    let width = ground.width as usize;
    let height = ground.height as usize;
    stamps::stamp_map_edge(grid, frame, mover, width, height);
    terrain::stamp_terrain_blockers(grid, frame, mover, ground.cells, width, height);
    stamp_obstacles(grid, frame, mover, ground.words);
}

// Clears the grid, stamps it and sums the stamps up.
fn count<F: FnOnce(&mut [u32])>(grid: &mut [u32], frame: Frame, stamp: F)
    requires framed { Framed frame grid.old }
    requires stampable { (g : _) → Framed frame g.now → F.pre stamp g }
    ensures { (k : ℕ) (Q : ℕ → ℕ → Bool) → k < 2 ^ 32
        → ((was now : List ℕ) → FnOnceReturnsAtMut F.FnOnce stamp was tt now → Adds frame.width frame.height k Q was now)
        → Counted frame.width frame.height Q grid.old grid.new }
{
    let stride = frame.width + 1;
    let rows = frame.height + 1;
    grid[..rows * stride].fill(0);
    stamp(grid);
    grid::finish(grid, stride, rows);
}

// Counts what stops a mover before the plan.
pub fn count_ground(grid: &mut [u32], frame: Frame, mover: CollisionBounds, ground: Ground<'_>)
    requires framed { Framed frame grid.old }
    requires surveyed { Surveyed (seen ground) }
    ensures { Counted frame.width frame.height (blocked_before (seen ground.entry) frame mover) grid.old grid.new }
{
    // The closure takes the parts, since a proof does not see into a struct of references that a closure holds.
    let Ground {
        width,
        height,
        cells,
        words,
    } = ground;
    count(grid, frame, |cleared| {
        let ground = Ground {
            width,
            height,
            cells,
            words,
        };
        stamp_ground(cleared, frame, mover, ground)
    });
}

// Counts the plan's collision boxes.
pub fn count_plan(grid: &mut [u32], frame: Frame, mover: CollisionBounds, plan: Plan)
    requires framed { Framed frame grid.old }
    requires count_le_buildings { plan.count ≤ caps.buildings }
    ensures { Counted frame.width frame.height (stops frame mover (map collision_box (built plan))) grid.old grid.new }
{
    count(
        grid,
        frame,
        |cleared| stamp_plan(cleared, frame, mover, plan),
    );
}
