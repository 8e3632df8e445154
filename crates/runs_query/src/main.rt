// Runs `validate_query` on one query with one or two of its numbers changed, case by case, and prints the refusal's number and values, or ok.
#![tactic(auto)]

ghost use Rattle.std.specs.Prelude.{◌≤◌};

use model::{
    CollisionBounds, DepotFootprint, Ground, PixelPosition, PixelRect, Plan, TilePosition,
    WallBuilding, WallError, WallQuery,
};
use std::io;

// The numbers of the query, by place: 0 map width, 1 height, 2 number of cells, 3 cell 3, 4 cell 5, 5 number of words, 6 to 9 the words of obstacle 1,
// 10 to 13 window, 14 and 15 start, 16 and 17 end, 18 to 21 mover, 22 building count, 23 to 30 building 0, 31 to 38 building 1.
const USUAL: [u32; 39] = [
    8, 8, 64, 24, 24, 8, 0, 0, 1, 1, 30, 30, 36, 36, 31, 32, 32, 31, 0, 0, 0, 0, 2, 0, 0, 1, 1, 16,
    16, 15, 15, 1, 1, 1, 1, 0, 0, 0, 0,
];

// A map of 129 by 1 cells with a window of 1,024 by 1 pixels and no building, by the same places.
const LONG: [u32; 39] = [
    129, 1, 129, 24, 24, 0, 0, 0, 1, 1, 0, 0, 1024, 1, 0, 0, 1023, 0, 0, 0, 0, 0, 0, 0, 0, 1, 1, 0,
    0, 0, 0, 0, 0, 1, 1, 0, 0, 0, 0,
];

// The form that a case begins with.
#[derive(Clone, Copy, Debug, PartialEq, Eq)]
enum Form {
    Usual,
    Long,
}

// Each case takes a form and changes two places of it: place, number. Where a number is signed, 4294967295 is -1 and 2147483648 is -2147483648.
const CASES: [(Form, [(usize, u32); 2]); 68] = [
    (Form::Usual, [(0, 8), (0, 8)]),
    (Form::Usual, [(0, 0), (0, 0)]),
    (Form::Usual, [(0, 1025), (0, 1025)]),
    (Form::Usual, [(1, 0), (1, 0)]),
    (Form::Usual, [(1, 1025), (1, 1025)]),
    (Form::Usual, [(0, 65536), (1, 65536)]),
    (Form::Usual, [(0, 9), (0, 9)]),
    (Form::Usual, [(0, 1024), (1, 1024)]),
    (Form::Usual, [(2, 63), (2, 63)]),
    (Form::Usual, [(2, 65), (2, 65)]),
    (Form::Usual, [(2, 0), (2, 0)]),
    (Form::Usual, [(3, 31), (3, 31)]),
    (Form::Usual, [(3, 32), (3, 32)]),
    (Form::Usual, [(3, 255), (3, 255)]),
    (Form::Usual, [(3, 6), (3, 6)]),
    (Form::Usual, [(3, 5), (3, 5)]),
    (Form::Usual, [(3, 30), (4, 32)]),
    (Form::Usual, [(3, 38), (4, 6)]),
    (Form::Usual, [(3, 29), (4, 7)]),
    (Form::Usual, [(5, 0), (5, 0)]),
    (Form::Usual, [(5, 7), (5, 7)]),
    (Form::Usual, [(5, 9), (5, 9)]),
    (Form::Usual, [(5, 32768), (5, 32768)]),
    (Form::Usual, [(5, 32772), (5, 32772)]),
    (Form::Usual, [(5, 32771), (5, 32771)]),
    (Form::Usual, [(6, 1), (6, 1)]),
    (Form::Usual, [(6, 0), (8, 0)]),
    (Form::Usual, [(7, 2), (7, 2)]),
    (Form::Usual, [(6, 2147483648), (8, 2147483647)]),
    (Form::Usual, [(6, 4294967295), (8, 0)]),
    (Form::Usual, [(6, 2147483647), (8, 2147483648)]),
    (Form::Usual, [(18, 8192), (18, 8192)]),
    (Form::Usual, [(18, 8193), (18, 8193)]),
    (Form::Usual, [(21, 4294967295), (21, 4294967295)]),
    (Form::Usual, [(22, 32), (22, 32)]),
    (Form::Usual, [(22, 33), (22, 33)]),
    (Form::Usual, [(22, 0), (22, 0)]),
    (Form::Usual, [(10, 4294967295), (10, 4294967295)]),
    (Form::Usual, [(10, 0), (11, 0)]),
    (Form::Usual, [(12, 64), (13, 64)]),
    (Form::Usual, [(12, 65), (12, 65)]),
    (Form::Usual, [(13, 2147483647), (13, 2147483647)]),
    (Form::Usual, [(10, 36), (10, 36)]),
    (Form::Usual, [(11, 37), (11, 37)]),
    (Form::Usual, [(14, 30), (14, 30)]),
    (Form::Usual, [(14, 29), (14, 29)]),
    (Form::Usual, [(15, 36), (15, 36)]),
    (Form::Usual, [(16, 4294967295), (16, 4294967295)]),
    (Form::Usual, [(17, 35), (17, 35)]),
    (Form::Usual, [(14, 36), (17, 29)]),
    (Form::Usual, [(25, 0), (25, 0)]),
    (Form::Usual, [(25, 256), (26, 256)]),
    (Form::Usual, [(25, 257), (25, 257)]),
    (Form::Usual, [(34, 0), (34, 0)]),
    (Form::Usual, [(27, 8192), (28, 8192)]),
    (Form::Usual, [(30, 8193), (30, 8193)]),
    (Form::Usual, [(23, 67108862), (29, 46)]),
    (Form::Usual, [(23, 67108862), (29, 47)]),
    (Form::Usual, [(23, 67108863), (23, 67108863)]),
    (Form::Usual, [(24, 4294967295), (33, 0)]),
    (Form::Usual, [(35, 8193), (33, 257)]),
    (Form::Usual, [(31, 134217728), (24, 67108863)]),
    (Form::Long, [(12, 1024), (12, 1024)]),
    (Form::Long, [(12, 1025), (12, 1025)]),
    (Form::Long, [(12, 1032), (12, 1032)]),
    (Form::Long, [(12, 1033), (12, 1033)]),
    (Form::Long, [(16, 1024), (12, 1025)]),
    (Form::Long, [(13, 9), (13, 9)]),
];

fn window_of(form: [u32; 39]) -> PixelRect {
    PixelRect {
        left: form[10].cast_signed(),
        top: form[11].cast_signed(),
        right: form[12].cast_signed(),
        bottom: form[13].cast_signed(),
    }
}

fn no_building() -> WallBuilding {
    WallBuilding {
        tile: TilePosition { x: 0, y: 0 },
        footprint: DepotFootprint {
            width_tiles: 1,
            height_tiles: 1,
        },
        collision: CollisionBounds {
            left: 0,
            top: 0,
            right: 0,
            bottom: 0,
        },
    }
}

// The building at eight places of the form from `at` on.
fn building_of(form: [u32; 39], at: usize) -> WallBuilding
    requires { at ≤ 31 }
{
    WallBuilding {
        tile: TilePosition {
            x: form[at],
            y: form[at + 1],
        },
        footprint: DepotFootprint {
            width_tiles: form[at + 2],
            height_tiles: form[at + 3],
        },
        collision: CollisionBounds {
            left: form[at + 4],
            top: form[at + 5],
            right: form[at + 6],
            bottom: form[at + 7],
        },
    }
}

fn plan_of(form: [u32; 39]) -> Plan {
    let empty = no_building();
    let mut buildings = [empty; 32];
    buildings[0] = building_of(form, 23);
    buildings[1] = building_of(form, 31);
    Plan {
        buildings,
        count: form[22] as usize,
    }
}

fn query_of(form: [u32; 39]) -> WallQuery {
    let window = window_of(form);
    let plan = plan_of(form);
    WallQuery {
        window,
        start: PixelPosition {
            x: form[14],
            y: form[15],
        },
        end: PixelPosition {
            x: form[16],
            y: form[17],
        },
        mover: CollisionBounds {
            left: form[18],
            top: form[19],
            right: form[20],
            bottom: form[21],
        },
        plan,
    }
}

fn changed(form: [u32; 39], changes: [(usize, u32); 2]) -> [u32; 39] {
    let mut next = form;
    for (place, number) in changes {
        if place < 39 {
            next[place] = number;
        }
    }
    next
}

fn run(form: [u32; 39], words: &[i32]) -> Result<(), WallError> {
    let mut cells = [24u8; 160];
    cells[3] = (form[3] % 256) as u8;
    cells[5] = (form[4] % 256) as u8;
    let n = (form[2] as usize).min(160);
    let query = query_of(form);
    let ground = Ground {
        width: form[0],
        height: form[1],
        cells: &cells[..n],
        words,
    };
    query::validate_query(ground, query)
}

// Obstacle 1's words are the form's. There are always 32,800 words.
fn case(
    rt: &impl Print,
    form: Form,
    changes: [(usize, u32); 2],
    words: &mut [i32],
) -> io::Result<()> {
    if words.len() < 32800 {
        return Ok(());
    }
    let base = match form {
        Form::Usual => USUAL,
        Form::Long => LONG,
    };
    let form = changed(base, changes);
    words[4] = form[6].cast_signed();
    words[5] = form[7].cast_signed();
    words[6] = form[8].cast_signed();
    words[7] = form[9].cast_signed();
    let m = (form[5] as usize).min(32800);
    runs::print_refusal(rt, run(form, &words[..m]))
}

// Obstacles of one pixel each: 0, 0, 1, 1.
fn lay_obstacles(words: &mut [i32]) {
    for i in 0..words.len() {
        words[i] = (i % 4 / 2) as i32;
    }
}

fn cases(rt: &impl Print, words: &mut [i32]) -> io::Result<()> {
    for (form, changes) in CASES {
        case(rt, form, changes, words)?;
    }
    Ok(())
}

fn main(rt: HostRuntime) -> io::Result<()> {
    let mut words = [0i32; 32800];
    lay_obstacles(&mut words);
    cases(&rt, &mut words)
}
