// The wall checker for another language to link (include/walls_c.h). Every call takes numbers and slices of any length, and nothing is required of them.
#![tactic(auto)]

ghost use Rattle.std.specs.Prelude.{◌*◌, take};
ghost use Rattle.model.specs.Ground.{ground};
ghost use Rattle.model.specs.Check.{Answers};
ghost use Rattle.model.specs.Words.{query_of, CheckSaid, TestSaid, ReadSaid, PackedSaid};
ghost use Rattle.walls_c.specs.Held.{Held};

use model::{Ground, PackedQuery, WallCheck, WallError};

// Checks the query that the words say, with this many buildings, in the areas 2 to 8.
#[unsafe(no_mangle)]
pub extern "C" fn walls_c_check(
    width: u32,
    height: u32,
    cells: &[u8],
    obstacles: &[i32],
    query: &[u64],
    buildings: usize,
    issues: &mut [u32],
    base: &mut [u32],
    planned: &mut [u32],
    marks: &mut [u8],
    parents: &mut [u32],
    queue: &mut [u32],
    route: &mut [u32],
    answer: &mut [u64],
) -> u64
    ensures { CheckSaid (ground width height cells.now obstacles.now) (query_of query.now buildings) (record { issues = issues.old; base = base.old; plan = planned.old; marks = marks.old; parents = parents.old; queue = queue.old; route = route.old }) (record { issues = issues.new; base = base.new; plan = planned.new; marks = marks.new; parents = parents.new; queue = queue.new; route = route.new }) answer.old answer.new result }
{
    let q = query_words::query_of(query, buildings);
    let ground = Ground {
        width,
        height,
        cells,
        words: obstacles,
    };
    let reply = walls::check_wall(
        ground, q, issues, base, planned, marks, parents, queue, route,
    );
    words::put_check(answer, reply)
}

// Reads a packed query: the cells to area 0, the obstacles' words to area 1, the rest to the answer.
#[unsafe(no_mangle)]
pub extern "C" fn walls_c_read_packed(
    bytes: &[u8],
    cells: &mut [u8],
    obstacles: &mut [i32],
    answer: &mut [u64],
) -> u64
    ensures { ReadSaid bytes.now (record { cells = cells.old; words = obstacles.old }) (record { cells = cells.new; words = obstacles.new }) answer.old answer.new result }
{
    let reply = packed::read_packed(bytes, cells, obstacles);
    words::put_read(answer, reply)
}

// Whether a list of route point words passes, in the areas 3 to 5.
#[unsafe(no_mangle)]
pub extern "C" fn walls_c_test_route(
    width: u32,
    height: u32,
    cells: &[u8],
    obstacles: &[i32],
    query: &[u64],
    buildings: usize,
    list: &[u32],
    base: &mut [u32],
    planned: &mut [u32],
    marks: &mut [u8],
    answer: &mut [u64],
) -> u64
    ensures { TestSaid (ground width height cells.now obstacles.now) (query_of query.now buildings) list.now (record { base = base.old; plan = planned.old; marks = marks.old }) (record { base = base.new; plan = planned.new; marks = marks.new }) answer.old answer.new result }
{
    let q = query_words::query_of(query, buildings);
    let ground = Ground {
        width,
        height,
        cells,
        words: obstacles,
    };
    let reply = walls::test_route(ground, q, list, base, planned, marks);
    words::put_test(answer, reply)
}

// Checks what was read into the fronts of the areas 0 and 1.
fn check_read(
    p: PackedQuery,
    cells: &[u8],
    words: &[i32],
    issues: &mut [u32],
    base: &mut [u32],
    planned: &mut [u32],
    marks: &mut [u8],
    parents: &mut [u32],
    queue: &mut [u32],
    route: &mut [u32],
) -> Result<WallCheck, WallError>
    requires { Held p cells.now words.now }
    ensures { Answers (ground p.width p.height (take (p.width * p.height) cells.now) (take (4 * p.obstacles) words.now)) p.query (record { issues = issues.old; base = base.old; plan = planned.old; marks = marks.old; parents = parents.old; queue = queue.old; route = route.old }) (record { issues = issues.new; base = base.new; plan = planned.new; marks = marks.new; parents = parents.new; queue = queue.new; route = route.new }) result }
{
    let n = p.width as usize * p.height as usize;
    let k = 4 * p.obstacles;
    let ground = Ground {
        width: p.width,
        height: p.height,
        cells: &cells[..n],
        words: &words[..k],
    };
    walls::check_wall(
        ground, p.query, issues, base, planned, marks, parents, queue, route,
    )
}

// Reads a packed query into the areas 0 and 1, and checks it in the areas 2 to 8.
#[unsafe(no_mangle)]
pub extern "C" fn walls_c_check_packed(
    bytes: &[u8],
    cells: &mut [u8],
    obstacles: &mut [i32],
    issues: &mut [u32],
    base: &mut [u32],
    planned: &mut [u32],
    marks: &mut [u8],
    parents: &mut [u32],
    queue: &mut [u32],
    route: &mut [u32],
    answer: &mut [u64],
) -> u64
    ensures { PackedSaid bytes.now (record { cells = cells.old; words = obstacles.old }) (record { cells = cells.new; words = obstacles.new }) (record { issues = issues.old; base = base.old; plan = planned.old; marks = marks.old; parents = parents.old; queue = queue.old; route = route.old }) (record { issues = issues.new; base = base.new; plan = planned.new; marks = marks.new; parents = parents.new; queue = queue.new; route = route.new }) answer.old answer.new result }
{
    let p = match packed::read_packed(bytes, cells, obstacles) {
        Ok(p) => p,
        Err(e) => return words::put_check(answer, Err(e)),
    };
    let reply = check_read(
        p, cells, obstacles, issues, base, planned, marks, parents, queue, route,
    );
    words::put_check(answer, reply)
}
