// A query from words, for hosts in other languages.
#![tactic(auto)]

ghost use Rattle.std.specs.Prelude.{◌≡◌, ◌+◌, ◌*◌, ◌<◌};
ghost use Rattle.model.specs.Lists.{table};
ghost use Rattle.model.specs.Words.{word_at, point_at, extents_at, rect_at, building_at, query_of};

use model::{
    CollisionBounds, DepotFootprint, PixelPosition, PixelRect, Plan, TilePosition, WallBuilding,
    WallQuery,
};

// The low 32 bits of word k, and 0 past the end.
fn word_at(words: &[u64], k: usize) -> u32
    ensures { result ≡ word_at words.now k }
{
    (words.get(k).copied().unwrap_or(0) % 4294967296) as u32
}

// Word k and the next. Here and below k is a place in a query, so that what is added to it still is one.
fn point_at(words: &[u64], k: usize) -> PixelPosition
    requires { k < 1000 }
    ensures { result ≡ point_at words.now k }
{
    PixelPosition {
        x: word_at(words, k),
        y: word_at(words, k + 1),
    }
}

fn extents_at(words: &[u64], k: usize) -> CollisionBounds
    requires { k < 900 }
    ensures { result ≡ extents_at words.now k }
{
    let near = point_at(words, k);
    let far = point_at(words, k + 2);
    CollisionBounds {
        left: near.x,
        top: near.y,
        right: far.x,
        bottom: far.y,
    }
}

fn rect_at(words: &[u64], k: usize) -> PixelRect
    requires { k < 900 }
    ensures { result ≡ rect_at words.now k }
{
    let e = extents_at(words, k);
    PixelRect {
        left: bits::to_signed(e.left),
        top: bits::to_signed(e.top),
        right: bits::to_signed(e.right),
        bottom: bits::to_signed(e.bottom),
    }
}

fn building_at(words: &[u64], k: usize) -> WallBuilding
    requires { k < 800 }
    ensures { result ≡ building_at words.now k }
{
    let at = point_at(words, k);
    let size = point_at(words, k + 2);
    WallBuilding {
        tile: TilePosition { x: at.x, y: at.y },
        footprint: DepotFootprint {
            width_tiles: size.x,
            height_tiles: size.y,
        },
        collision: extents_at(words, k + 4),
    }
}

// All 32 places of a plan, whatever its count.
fn plan_at(words: &[u64], count: usize) -> Plan
    ensures { result ≡ record { buildings = table (λ i. building_at words.now (12 + 8 * i)) 32; count = count } }
{
    let buildings = std::array::from_fn(|i| building_at(words, 12 + 8 * i));
    Plan { buildings, count }
}

// The query that the words say, with this many buildings.
pub fn query_of(words: &[u64], count: usize) -> WallQuery
    ensures { result ≡ query_of words.now count }
{
    WallQuery {
        window: rect_at(words, 0),
        start: point_at(words, 4),
        end: point_at(words, 6),
        mover: extents_at(words, 8),
        plan: plan_at(words, count),
    }
}
