// Answers as words, for hosts in other languages.
#![tactic(auto)]

ghost use Rattle.std.specs.Prelude.{◌≡◌, List, ℕ, ◌+◌, ◌*◌, ◌<◌, length, set};
ghost use mathlib.Core.List.{flat_map};
ghost use Rattle.model.specs.Refusal.{given};
ghost use Rattle.model.specs.Words.{bits, number, refusal_words, rect_words, passed_words, placement_words, check_words, test_words, end_words, building_words, query_words, read_words, written};

use model::{
    CollisionBounds, PackedQuery, Passed, PixelPosition, PixelRect, WallBuilding, WallCheck,
    WallError, WallPlacement, WallQuery,
};

// The 32 bits of a signed number.
fn side(x: i32) -> u64
    ensures { result ≡ bits x }
{
    x.cast_unsigned() as u64
}

// The sides of a rectangle.
fn rect_words(r: PixelRect) -> [u64; 4]
    ensures { result ≡ rect_words r }
{
    [side(r.left), side(r.top), side(r.right), side(r.bottom)]
}

// Verdict, baseline, number of points and window.
fn passed_words(passed: Passed, window: PixelRect) -> [u64; 7]
    ensures { result ≡ passed_words passed window }
{
    let [left, top, right, bottom] = rect_words(window);
    [
        passed.passage as u64,
        passed.baseline_passable as u64,
        passed.points as u64,
        left,
        top,
        right,
        bottom,
    ]
}

// Start, end and mover.
fn end_words(s: PixelPosition, e: PixelPosition, m: CollisionBounds) -> [u64; 8]
    ensures { result ≡ end_words s e m }
{
    [
        s.x as u64,
        s.y as u64,
        e.x as u64,
        e.y as u64,
        m.left as u64,
        m.top as u64,
        m.right as u64,
        m.bottom as u64,
    ]
}

// A value of which a host is told N words.
trait Told<const N: usize>: Copy {
    ghost words: { Self → List ℕ };

    fn words(self) -> [u64; N]
        ensures { result ≡ words self };
}

impl Told<9> for WallPlacement {
    ghost words = { placement_words };

    // Both boxes and the number of issues.
    fn words(self) -> [u64; 9] {
        let f = rect_words(self.footprint);
        let c = rect_words(self.collision);
        [
            f[0],
            f[1],
            f[2],
            f[3],
            c[0],
            c[1],
            c[2],
            c[3],
            self.issues as u64,
        ]
    }
}

impl Told<8> for WallBuilding {
    ghost words = { building_words };

    // Tile, footprint and collision extents.
    fn words(self) -> [u64; 8] {
        [
            self.tile.x as u64,
            self.tile.y as u64,
            self.footprint.width_tiles as u64,
            self.footprint.height_tiles as u64,
            self.collision.left as u64,
            self.collision.top as u64,
            self.collision.right as u64,
            self.collision.bottom as u64,
        ]
    }
}

// v in place k, where there is one.
fn put(out: &mut [u64], k: usize, v: u64)
    ensures { out.new ≡ set out.old k v }
{
    if k < out.len() {
        out[k] = v;
    }
}

// The words in places from `at` on, as many as there are places for.
fn put_words(out: &mut [u64], at: usize, words: &[u64])
    requires { at < 1000 }
    ensures { out.new ≡ written at words.now out.old }
{
    let from = at.min(out.len());
    let n = words.len().min(out.len() - from);
    out[from..from + n].copy_from_slice(&words[..n]);
}

// The N words of each value, one behind the other.
fn put_each<const N: usize, T: Told<N>>(out: &mut [u64], at: usize, values: &[T])
    requires { at + N * length values.now < 1000 }
    ensures { out.new ≡ written at (flat_map T.words values.now) out.old }
{
    for (i, value) in values.iter().enumerate() {
        put_words(out, at + N * i, &value.words());
    }
}

// The number and the values of the refusal in the first five places, zeros where there is none. It answers the number.
fn put_refusal<T>(out: &mut [u64], reply: &Result<T, WallError>) -> u64
    ensures words { out.new ≡ written 0 (refusal_words (given reply.now)) out.old }
    ensures five { length (refusal_words (given reply.now)) ≡ 5 }
    ensures told { result ≡ number (given reply.now) }
{
    match reply {
        Ok(_) => {
            put_words(out, 0, &[0; 5]);
            0
        }
        Err(e) => {
            let number = refusals::number(*e) as u64;
            let values = refusals::values(*e);
            put(out, 0, number);
            put_words(out, 1, &values);
            number
        }
    }
}

// What a check answers, zeros beside a refusal, and the number of the refusal.
pub fn put_check(out: &mut [u64], reply: Result<WallCheck, WallError>) -> u64
    ensures { (out.new ≡ written 0 (check_words reply) out.old) × (result ≡ number (given reply)) }
{
    let told = put_refusal(out, &reply);
    match reply {
        Ok(check) => {
            put_words(out, 5, &passed_words(check.passed, check.window));
            put_each(out, 12, &check.placements);
        }
        Err(_) => put_words(out, 5, &[0; 295]),
    }
    told
}

// What a route test answers, no beside a refusal, and the number of the refusal.
pub fn put_test(out: &mut [u64], reply: Result<bool, WallError>) -> u64
    ensures { (out.new ≡ written 0 (test_words reply) out.old) × (result ≡ number (given reply)) }
{
    let told = put_refusal(out, &reply);
    put(out, 5, reply.unwrap_or(false) as u64);
    told
}

// The words that a query is made from, but for the number of buildings.
fn put_query(out: &mut [u64], query: WallQuery)
    ensures { out.new ≡ written 9 (query_words query) out.old }
{
    put_words(out, 9, &rect_words(query.window));
    put_words(out, 13, &end_words(query.start, query.end, query.mover));
    put_each(out, 21, &query.plan.buildings);
}

// What reading a packed query answers, zeros beside a refusal, and the number of the refusal.
pub fn put_read(out: &mut [u64], reply: Result<PackedQuery, WallError>) -> u64
    ensures { (out.new ≡ written 0 (read_words reply) out.old) × (result ≡ number (given reply)) }
{
    let told = put_refusal(out, &reply);
    match reply {
        Ok(packed) => {
            let sizes = [
                packed.width as u64,
                packed.height as u64,
                packed.obstacles as u64,
                packed.query.plan.count as u64,
            ];
            put_words(out, 5, &sizes);
            put_query(out, packed.query);
        }
        Err(_) => put_words(out, 5, &[0; 272]),
    }
    told
}
