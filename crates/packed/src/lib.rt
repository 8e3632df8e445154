// Reading a packed query into areas 0 and 1 and a record.
#![tactic(auto)]

ghost use Rattle.std.specs.Prelude.{◌≡◌, List, ◌++◌, ℕ, ◌*◌, ◌≤◌, ◌<◌, length};
ghost use Rattle.model.specs.Refusal.{given, first};
ghost use Rattle.model.specs.Areas.{room_lines};
ghost use Rattle.model.specs.Packed.{header_in, area_in, packed_lines, ReadAreas, read_rooms, ReadLeaves, ReadAnswers};
ghost use Rattle.packed.specs.Reading.{HeaderIs, Small, bits_of};

use bits::Bits;
use model::{PackedQuery, Room, WallError};

// The first 40 bits.
#[derive(Clone, Copy, Debug, PartialEq, Eq)]
pub struct Header {
    pub width: u32,
    pub height: u32,
    pub obstacles: usize,
    pub buildings: usize,
}

// The header of s. Bits past the end count as 0.
pub fn read_header(s: &[u8]) -> Header
    ensures { HeaderIs s.now result }
{
    let w = Bits { at: 0 }.get(s, 10);
    let h = w.next.get(s, 10);
    let n = h.next.get(s, 14);
    let b = n.next.get(s, 6);
    Header {
        width: w.value + 1,
        height: h.value + 1,
        obstacles: n.value as usize,
        buildings: b.value as usize,
    }
}

// How many cells the header says.
fn area(h: Header) -> usize
    requires { Small h }
    ensures { (result ≡ h.width * h.height) × (result ≤ 1048576) }
{
    h.width as usize * h.height as usize
}

// How many bits the header's counts need, every building counted.
fn needed_bits(h: Header) -> usize
    requires { Small h }
    ensures { (result ≡ bits_of h) × (result < 16777216) }
{
    let cells = area(h);
    40 + 5 * cells + 32 * (4 * h.obstacles + 12 + 8 * h.buildings)
}

// 18 and 19: as many bytes as the header's counts need, and no filling bit set.
fn validate_length(s: &[u8]) -> Result<(), WallError>
    ensures { given result ≡ first (packed_lines s.now) }
{
    let bits = needed_bits(read_header(s));
    let bytes = (bits + 7) / 8;
    if s.len() < bytes {
        return Err(WallError::PackedShort);
    }
    if bytes < s.len() {
        return Err(WallError::PackedTail);
    }
    let fill = Bits { at: bits }.get(s, (8 * bytes - bits) as u32);
    if fill.value != 0 {
        return Err(WallError::PackedTail);
    }
    Ok(())
}

// 17 of reading: areas 0 and 1 of these lengths.
fn read_room(h: Header, cells: usize, words: usize) -> Result<(), WallError>
    requires { Small h }
    ensures { (s : List ℕ) (a : ReadAreas) → HeaderIs s h → cells ≡ length a.cells → words ≡ length a.words → given result ≡ first (room_lines (read_rooms s a)) }
{
    rooms::room_too_small(&[
        Room {
            area: 0,
            has: cells,
            needs: area(h),
        },
        Room {
            area: 1,
            has: words,
            needs: 4 * h.obstacles,
        },
    ])
}

// 18, 19, 17, in that order, for areas 0 and 1 of these lengths.
fn validate_read(s: &[u8], cells: usize, words: usize) -> Result<(), WallError>
    ensures { (a : ReadAreas) → cells ≡ length a.cells → words ≡ length a.words → given result ≡ first (packed_lines s.now ++ room_lines (read_rooms s.now a)) }
{
    let told = validate_length(s);
    let Ok(()) = told else {
        return told;
    };
    let h = read_header(s);
    read_room(h, cells, words)
}

// Everything behind the header, once there is enough of it and room for it.
fn read_all(h: Header, s: &[u8], cells: &mut [u8], words: &mut [i32]) -> PackedQuery
    requires header_is { HeaderIs s.now h }
    requires s_in_bounds { (area_in s.now ≤ length cells.old) × (4 * (header_in s.now).obstacles ≤ length words.old) }
    ensures { ReadLeaves s.now (record { cells = cells.old; words = words.old }) (record { cells = cells.new; words = words.new }) (Ok result) }
{
    let n = area(h);
    let k = 4 * h.obstacles;
    let at = Bits { at: 40 }.cells(s, cells, n);
    let next = at.words(s, words, k);
    let query = next.query(s, h.buildings);
    PackedQuery {
        width: h.width,
        height: h.height,
        obstacles: h.obstacles,
        query,
    }
}

// Reads a packed query: the cells to area 0, the obstacles' words to area 1, the rest to the answer.
pub fn read_packed(s: &[u8], cells: &mut [u8], words: &mut [i32]) -> Result<PackedQuery, WallError>
    ensures { ReadAnswers s.now (record { cells = cells.old; words = words.old }) (record { cells = cells.new; words = words.new }) result }
{
    validate_read(s, cells.len(), words.len())?;
    let h = read_header(s);
    Ok(read_all(h, s, cells, words))
}
