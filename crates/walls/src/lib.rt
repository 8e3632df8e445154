// The entry that hosts call: whether the walls of a plan let a mover through. Any caller can lend any slices and ask any query.
#![tactic(auto)]

ghost use Rattle.std.specs.Prelude.{◌≡◌, ◌++◌, length};
ghost use Rattle.model.specs.Ground.{seen};
ghost use Rattle.model.specs.Refusal.{given, first, query_lines};
ghost use Rattle.model.specs.Areas.{room_lines};
ghost use Rattle.model.specs.Check.{CheckAreas, Answers, Checked, check_rooms};
ghost use Rattle.model.specs.RouteTest.{TestAreas, TestAnswers, TestLeaves, test_rooms};
ghost use Rattle.model.specs.Accepted.{Valid, CheckEnough, TestEnough};
ghost use Rattle.rooms.specs.Lengths.{lengths};

use model::{Ground, WallCheck, WallError, WallQuery};
use rooms::Lent;

// 1 to 17 of a check in areas of these lengths.
fn validate_check(ground: Ground<'_>, query: WallQuery, lent: Lent) -> Result<(), WallError>
    ensures { (a : CheckAreas) → lent ≡ lengths a → given result ≡ first (query_lines (seen ground.entry) query ++ room_lines (check_rooms (seen ground.entry) query a)) }
{
    let told = query::validate_query(ground, query);
    let Ok(()) = told else {
        return told;
    };
    rooms::check_room(query, ground.words.len() / 4, lent)
}

// A check that nothing refuses: the placements of the plan, then the mover's passage.
fn accepted(
    ground: Ground<'_>,
    query: WallQuery,
    issues: &mut [u32],
    base: &mut [u32],
    planned: &mut [u32],
    marks: &mut [u8],
    parents: &mut [u32],
    queue: &mut [u32],
    route: &mut [u32],
) -> WallCheck
    requires valid { Valid (seen ground) query }
    requires check_enough { CheckEnough (seen ground) query (record { issues = issues.old; base = base.old; plan = planned.old; marks = marks.old; parents = parents.old; queue = queue.old; route = route.old }) }
    ensures { Checked (seen ground.entry) query (record { issues = issues.old; base = base.old; plan = planned.old; marks = marks.old; parents = parents.old; queue = queue.old; route = route.old }) (record { issues = issues.new; base = base.new; plan = planned.new; marks = marks.new; parents = parents.new; queue = queue.new; route = route.new }) result }
{
    let placements = placement::assess_placements(ground, query.plan, issues);
    let window = query.window;
    let passed = passage::passage(
        ground,
        window,
        query.mover,
        query.plan,
        query.start,
        query.end,
        base,
        planned,
        marks,
        parents,
        queue,
        route,
    );
    WallCheck {
        placements,
        passed,
        window,
    }
}

// Checks a query in the lent areas 2 to 8. A refused call changes none of them.
pub fn check_wall(
    ground: Ground<'_>,
    query: WallQuery,
    issues: &mut [u32],
    base: &mut [u32],
    planned: &mut [u32],
    marks: &mut [u8],
    parents: &mut [u32],
    queue: &mut [u32],
    route: &mut [u32],
) -> Result<WallCheck, WallError>
    ensures { Answers (seen ground.entry) query (record { issues = issues.old; base = base.old; plan = planned.old; marks = marks.old; parents = parents.old; queue = queue.old; route = route.old }) (record { issues = issues.new; base = base.new; plan = planned.new; marks = marks.new; parents = parents.new; queue = queue.new; route = route.new }) result }
{
    let lent = Lent {
        issues: issues.len(),
        base: base.len(),
        plan: planned.len(),
        marks: marks.len(),
        parents: parents.len(),
        queue: queue.len(),
        route: route.len(),
    };
    validate_check(ground, query, lent)?;
    Ok(accepted(
        ground, query, issues, base, planned, marks, parents, queue, route,
    ))
}

// 1 to 17 of a route test in areas of these lengths.
fn validate_test(
    ground: Ground<'_>,
    query: WallQuery,
    base: usize,
    plan: usize,
    marks: usize,
) -> Result<(), WallError>
    ensures { (a : TestAreas) → base ≡ length a.base → plan ≡ length a.plan → marks ≡ length a.marks → given result ≡ first (query_lines (seen ground.entry) query ++ room_lines (test_rooms query a)) }
{
    let told = query::validate_query(ground, query);
    let Ok(()) = told else {
        return told;
    };
    rooms::test_room(query, base, plan, marks)
}

// A route test that nothing refuses: the list against the marks after the plan.
fn tested(
    ground: Ground<'_>,
    query: WallQuery,
    list: &[u32],
    base: &mut [u32],
    planned: &mut [u32],
    marks: &mut [u8],
) -> bool
    requires { Valid (seen ground) query × TestEnough query (record { base = base.old; plan = planned.old; marks = marks.old }) }
    ensures { TestLeaves (seen ground.entry) query list.now (record { base = base.old; plan = planned.old; marks = marks.old }) (record { base = base.new; plan = planned.new; marks = marks.new }) (Ok result) }
{
    let window = query.window;
    marks::mark_centers(
        ground,
        window,
        query.mover,
        query.plan,
        base,
        planned,
        marks,
    );
    let frame = marks::frame_of(window);
    let passes = route_list::is_passage_planned(marks, frame, list, query.start, query.end);
    marks::clear_marks(marks, 2 * (frame.width * frame.height));
    passes
}

// Whether a list of route words is a passage from the query's start to its end after the plan, in the lent areas 3 to 5. A refused
// call changes none of them.
pub fn test_route(
    ground: Ground<'_>,
    query: WallQuery,
    list: &[u32],
    base: &mut [u32],
    planned: &mut [u32],
    marks: &mut [u8],
) -> Result<bool, WallError>
    ensures { TestAnswers (seen ground.entry) query list.now (record { base = base.old; plan = planned.old; marks = marks.old }) (record { base = base.new; plan = planned.new; marks = marks.new }) result }
{
    validate_test(ground, query, base.len(), planned.len(), marks.len())?;
    Ok(tested(ground, query, list, base, planned, marks))
}
