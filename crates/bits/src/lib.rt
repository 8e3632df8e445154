// A cursor over bits, and what it reads: fields, words, points, boxes, buildings, and a query behind the obstacles.
#![tactic(auto)]

ghost use Rattle.std.specs.Prelude.{◌≡◌, ◌++◌, ℕ, ◌+◌, ◌*◌, ◌^◌, ◌≤◌, ◌<◌, length, get_or, drop};
ghost use Rattle.model.specs.Lists.{table};
ghost use Rattle.model.specs.Packed.{field_at, signed, rect_in, point_in, extents_in, building_in};
ghost use Rattle.bits.specs.Reading.{AtWord, Near, plan_in, query_from};

use model::{
    CollisionBounds, DepotFootprint, PixelPosition, PixelRect, Plan, TilePosition, WallBuilding,
    WallQuery,
};

// A position, in bits.
#[derive(Clone, Copy, Debug, PartialEq, Eq)]
pub struct Bits {
    pub at: usize,
}

// A value read, and the position past it.
#[derive(Clone, Copy, Debug, PartialEq, Eq)]
pub struct Got<T> {
    pub value: T,
    pub next: Bits,
}

// Five bytes as one number, the first the most significant.
fn join(a: u8, b: u8, c: u8, d: u8, e: u8) -> u64
    ensures { result ≡ (((a * 256 + b) * 256 + c) * 256 + d) * 256 + e }
{
    (((a as u64 * 256 + b as u64) * 256 + c as u64) * 256 + d as u64) * 256 + e as u64
}

// The byte at i, and 0 past the end.
fn byte_or_0(s: &[u8], i: usize) -> u8
    ensures { result ≡ get_or s.now i 0 }
{
    s.get(i).copied().unwrap_or(0)
}

// The 40 bits of the five bytes at i, as one number. All five are there but at the very end, so the first path is the usual one.
fn five(s: &[u8], i: usize) -> u64
    requires { i < 2305843009213693952 }
    ensures { result ≡ field_at s.now (8 * i) 40 }
{
    if i + 4 < s.len() {
        return join(s[i], s[i + 1], s[i + 2], s[i + 3], s[i + 4]);
    }
    let a = byte_or_0(s, i);
    let b = byte_or_0(s, i + 1);
    let c = byte_or_0(s, i + 2);
    let d = byte_or_0(s, i + 3);
    let e = byte_or_0(s, i + 4);
    join(a, b, c, d, e)
}

// The signed number of the same 32 bits.
pub fn to_signed(w: u32) -> i32
    ensures { result ≡ signed w }
{
    w.cast_signed()
}

impl Bits {
    // The next n bits, those past the end counted as 0, and the position past them.
    pub fn get(self, s: &[u8], n: u32) -> Got<u32>
        requires { (n ≤ 32) × (self.at < 4611686018427387904) }
        ensures { (result.value ≡ field_at s.now self.at n) × (result.next.at ≡ self.at + n) × (result.value < 2 ^ n) }
    {
        let at = self.at;
        let k = n as usize;
        let rest = five(s, at / 8) >> (40 - (at % 8 + k));
        let v = rest % (1u64 << n);
        Got {
            value: v as u32,
            next: Bits { at: at + k },
        }
    }

    // count fields of `width` bits, as `of` reads them, to the start of out.
    fn fields<T: Copy, F: Fn(u32) -> T>(
        self,
        s: &[u8],
        width: u32,
        out: &mut [T],
        count: usize,
        of: F,
    ) -> Bits
        requires narrow { width ≤ 32 }
        requires room { count ≤ length out.old }
        requires near { Near self.at (width * count) }
        requires callable { (v : ℕ) → v < 2 ^ width → F.pre of v }
        ensures at { result.at ≡ self.at + width * count }
        ensures filled { (f : ℕ → T) → ((v : ℕ) (y : T) → F.post of v y → y ≡ f v)
            → out.new ≡ table (λ k. f (field_at s.now (self.at + width * k) width)) count ++ drop count out.old }
    {
        let mut cur = self;
        for k in 0..count {
            let got = cur.get(s, width);
            out[k] = of(got.value);
            cur = got.next;
        }
        cur
    }

    // count fields of 5 bits, to the start of out.
    pub fn cells(self, s: &[u8], out: &mut [u8], count: usize) -> Bits
        requires { (count ≤ length out.old) × Near self.at (5 * count) }
        ensures { (result.at ≡ self.at + 5 * count) × (out.new ≡ table (λ k. field_at s.now (self.at + 5 * k) 5) count ++ drop count out.old) }
    {
        self.fields(s, 5, out, count, |v| v as u8)
    }

    // count words of 32 bits, as signed numbers, to the start of out.
    pub fn words(self, s: &[u8], out: &mut [i32], count: usize) -> Bits
        requires { (count ≤ length out.old) × Near self.at (32 * count) }
        ensures { (result.at ≡ self.at + 32 * count) × (out.new ≡ table (λ k. signed (field_at s.now (self.at + 32 * k) 32)) count ++ drop count out.old) }
    {
        self.fields(s, 32, out, count, to_signed)
    }

    // A point: x, y.
    fn point(self, s: &[u8]) -> Got<PixelPosition>
        requires { Near self.at 64 }
        ensures at { result.next.at ≡ self.at + 64 }
        ensures value { (k : ℕ) → AtWord s.now self.at k → result.value ≡ point_in s.now k }
    {
        let x = self.get(s, 32);
        let y = x.next.get(s, 32);
        Got {
            value: PixelPosition {
                x: x.value,
                y: y.value,
            },
            next: y.next,
        }
    }

    // Four words: left, top, right, bottom.
    fn extents(self, s: &[u8]) -> Got<CollisionBounds>
        requires { Near self.at 128 }
        ensures at { result.next.at ≡ self.at + 128 }
        ensures value { (k : ℕ) → AtWord s.now self.at k → result.value ≡ extents_in s.now k }
    {
        let near = self.point(s);
        let far = near.next.point(s);
        Got {
            value: CollisionBounds {
                left: near.value.x,
                top: near.value.y,
                right: far.value.x,
                bottom: far.value.y,
            },
            next: far.next,
        }
    }

    // The same as signed numbers.
    fn rect(self, s: &[u8]) -> Got<PixelRect>
        requires { Near self.at 128 }
        ensures at { result.next.at ≡ self.at + 128 }
        ensures value { (k : ℕ) → AtWord s.now self.at k → result.value ≡ rect_in s.now k }
    {
        let got = self.extents(s);
        Got {
            value: PixelRect {
                left: to_signed(got.value.left),
                top: to_signed(got.value.top),
                right: to_signed(got.value.right),
                bottom: to_signed(got.value.bottom),
            },
            next: got.next,
        }
    }

    // Tile x, y, width, height in tiles, collision left, top, right, bottom.
    fn building(self, s: &[u8]) -> Got<WallBuilding>
        requires { Near self.at 256 }
        ensures at { result.next.at ≡ self.at + 256 }
        ensures value { (k : ℕ) → AtWord s.now self.at k → result.value ≡ building_in s.now k }
    {
        let at = self.point(s);
        let size = at.next.point(s);
        let around = size.next.extents(s);
        Got {
            value: WallBuilding {
                tile: TilePosition {
                    x: at.value.x,
                    y: at.value.y,
                },
                footprint: DepotFootprint {
                    width_tiles: size.value.x,
                    height_tiles: size.value.y,
                },
                collision: around.value,
            },
            next: around.next,
        }
    }

    // A plan of `count` buildings, of which it has room for 32: those past 32 are skipped, and unused places are zero.
    fn plan(self, s: &[u8], count: usize) -> Plan
        requires { Near self.at 8192 }
        ensures { (k : ℕ) → AtWord s.now self.at k → result ≡ plan_in s.now k count }
    {
        let mut buildings = [WallBuilding::default(); 32];
        let mut cur = self;
        for i in 0..count.min(32) {
            let got = cur.building(s);
            buildings[i] = got.value;
            cur = got.next;
        }
        Plan { buildings, count }
    }

    // Window, start, end, mover and plan.
    pub fn query(self, s: &[u8], count: usize) -> WallQuery
        requires { Near self.at 8576 }
        ensures { (k : ℕ) → AtWord s.now self.at k → result ≡ query_from s.now k count }
    {
        let window = self.rect(s);
        let start = window.next.point(s);
        let end = start.next.point(s);
        let mover = end.next.extents(s);
        WallQuery {
            window: window.value,
            start: start.value,
            end: end.value,
            mover: mover.value,
            plan: mover.next.plan(s, count),
        }
    }
}
