// Obstacles as a list of rectangle records: a call that copies them to area 1, four words each, and one that copies and then checks.
#![tactic(auto)]

ghost use Rattle.std.specs.Prelude.{◌≡◌, ◌+◌, ◌*◌, ◌<◌, length};
ghost use Rattle.model.specs.Records.{Copies, RecordAnswers};
ghost use Rattle.records.specs.Stores.{stored};

use model::{Ground, PixelRect, WallCheck, WallError, WallQuery};

// Stores the sides of r at the places 4k to 4k + 3.
fn put_rect(words: &mut [i32], k: usize, r: PixelRect)
    requires { 4 * k + 3 < length words.old }
    ensures { words.new ≡ stored words.old (4 * k) r }
{
    let at = 4 * k;
    words[at] = r.left;
    words[at + 1] = r.top;
    words[at + 2] = r.right;
    words[at + 3] = r.bottom;
}

// Four words for each of n rectangles.
fn words_needed(n: usize) -> usize
    requires { n < 4611686018427387904 }
    ensures { result ≡ 4 * n }
{
    4 * n
}

// Copies the rectangles to area 1: left, top, right, bottom of each. Refused by 17 alone, and then it changes nothing.
pub fn copy_obstacles(rects: &[PixelRect], words: &mut [i32]) -> Result<(), WallError>
    ensures { Copies rects.now words.old words.new result }
{
    if words.len() < words_needed(rects.len()) {
        return Err(WallError::RoomTooSmall { area: 1 });
    }
    for i in 0..rects.len() {
        put_rect(words, i, rects[i]);
    }
    Ok(())
}

// Copies the rectangles to area 1, and checks the query in the lent areas 2 to 8 with the copied words as obstacles. Where area 1 is too
// small, that is refused before all else, and no area is changed.
pub fn check_wall_records(
    width: u32,
    height: u32,
    cells: &[u8],
    rects: &[PixelRect],
    words: &mut [i32],
    query: WallQuery,
    issues: &mut [u32],
    base: &mut [u32],
    planned: &mut [u32],
    marks: &mut [u8],
    parents: &mut [u32],
    queue: &mut [u32],
    route: &mut [u32],
) -> Result<WallCheck, WallError>
    ensures { RecordAnswers width height cells.now rects.now query words.old words.new (record { issues = issues.old; base = base.old; plan = planned.old; marks = marks.old; parents = parents.old; queue = queue.old; route = route.old }) (record { issues = issues.new; base = base.new; plan = planned.new; marks = marks.new; parents = parents.new; queue = queue.new; route = route.new }) result }
{
    copy_obstacles(rects, words)?;
    let ground = Ground {
        width,
        height,
        cells,
        words: &words[..words_needed(rects.len())],
    };
    walls::check_wall(
        ground, query, issues, base, planned, marks, parents, queue, route,
    )
}
