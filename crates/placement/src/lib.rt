// Placements: both boxes of each building of a plan, and what is wrong with where it stands, as words in a lent area.
#![tactic(auto)]

ghost use Rattle.std.specs.Prelude.{◌≡◌, ◌≤◌, ◌<◌, length};
ghost use Rattle.model.specs.Ground.{seen, rects, built};
ghost use Rattle.model.specs.Placement.{issues_of};
ghost use Rattle.model.specs.Areas.{issue_room};
ghost use Rattle.model.specs.Check.{no_placement};
ghost use Rattle.placement.specs.Assessed.{Assessable, OneAssessed, AllAssessed, building_at};

use model::{Ground, PixelRect, Plan, WallPlacement};

// Both boxes of one building and the number of its issues, whose words it writes first.
fn assess_building(
    ground: Ground<'_>,
    plan: Plan,
    building: usize,
    issues: &mut [u32],
) -> WallPlacement
    requires assessable { Assessable (seen ground) plan }
    requires building { building < plan.count }
    requires room { length (issues_of (seen ground) (built plan) building (building_at plan building)) ≤ length issues.old }
    ensures { OneAssessed (seen ground.entry) plan building issues.old issues.new result }
{
    let b = plan.buildings[building];
    let boxes = placement_issues::boxes_of(b);
    let footprint = boxes.footprint;
    let mut count = placement_issues::ground_issues(
        ground.width,
        ground.height,
        ground.cells,
        b,
        boxes,
        building,
        issues,
    );
    let words = ground.words;
    count += placement_issues::overlaps_obstacles(words, footprint, building, &mut issues[count..]);
    count += placement_issues::overlaps_buildings(plan, footprint, building, &mut issues[count..]);
    WallPlacement {
        footprint,
        collision: boxes.collision,
        issues: count,
    }
}

// What an unused place of the answer holds.
fn no_placement() -> WallPlacement
    ensures { result ≡ no_placement }
{
    let rect = PixelRect {
        left: 0,
        top: 0,
        right: 0,
        bottom: 0,
    };
    WallPlacement {
        footprint: rect,
        collision: rect,
        issues: 0,
    }
}

// Both boxes and the number of issues of each building. The issues' words stand first in `issues`, by building index.
pub fn assess_placements(ground: Ground<'_>, plan: Plan, issues: &mut [u32]) -> [WallPlacement; 32]
    requires assessable { Assessable (seen ground) plan }
    requires room { issue_room (length (rects ground.words.now)) plan.count ≤ length issues.old }
    ensures { AllAssessed (seen ground.entry) plan issues.old issues.new result }
{
    let mut placements = [no_placement(); 32];
    let mut at = 0;
    for i in 0..plan.count {
        let placement = assess_building(ground, plan, i, &mut issues[at..]);
        placements[i] = placement;
        at += placement.issues;
    }
    placements
}
