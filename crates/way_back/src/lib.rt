// The way back: the words of the places that a search's parents pass, from the start to the end.
#![tactic(auto)]

ghost use Rattle.std.specs.Prelude.{◌≡◌, List, ℕ, ◌+◌, ◌^◌, ◌<◌, ◌≤◌, length};
ghost use Rattle.model.specs.Steps.{point_word};
ghost use Rattle.search.specs.Search.{Trail};
ghost use Rattle.way_back.specs.Ways.{Window, size, spot, Short, Laid, Written};

use search::wide;
use stamps::Frame;

// From one place to another: so many places up, or so many down.
#[derive(Clone, Copy, Debug, PartialEq, Eq)]
struct Hop {
    up: usize,
    down: usize,
}

// The hop from place `at` to its parent, whose word is `back`. It is the last hop again where that leads there: the next place
// is then known without waiting for the word, and a long way back costs no wait at each of its places.
fn hop_back(last: Hop, at: usize, back: usize) -> Hop
    requires { Short last × (at < 2 ^ 62) × (1 ≤ back) × (back < 4294967296) }
    ensures { Short result × (at + result.up + 1 ≡ back + result.down) }
{
    if back + last.down == at + last.up + 1 {
        return last;
    }
    if back > at {
        return Hop {
            up: back - 1 - at,
            down: 0,
        };
    }
    Hop {
        up: 0,
        down: at + 1 - back,
    }
}

// The word of the point at place p.
fn point(frame: Frame, p: usize) -> u32
    requires { Window frame × (p < size frame) }
    ensures { result ≡ point_word (spot frame p) }
{
    let x = frame.left as usize + p % frame.width;
    let y = frame.top as usize + p / frame.width;
    (x * 65536 + y) as u32
}

// Writes the words of the places that the parents pass from `end` back to `start`, the end's first. Returns their number.
fn write_back(parents: &[u32], out: &mut [u32], frame: Frame, start: usize, end: usize) -> usize
    requires window { Window frame × (start < size frame) }
    requires room { (length parents.now ≡ size frame) × (size frame ≤ length out.old) }
    requires led { (ps : List ℕ) × Trail parents.now start end ps × (length ps ≤ length parents.now) }
    ensures { Laid parents.now start end frame result out.old out.new }
{
    let mut n = 0;
    let mut p = end;
    let mut hop = Hop { up: 0, down: 0 };
    while p != start {
        out[n] = point(frame, p);
        n += 1;
        hop = hop_back(hop, p, wide(parents[p]));
        p = p + hop.up - hop.down;
    }
    out[n] = point(frame, start);
    n + 1
}

// Writes the words of the places that the parents pass from `start` to `end`. Returns their number. They are laid from the end,
// since that is where the way back begins, and then turned round.
pub fn write_way(parents: &[u32], out: &mut [u32], frame: Frame, start: usize, end: usize) -> usize
    requires window { Window frame × (start < size frame) }
    requires room { (length parents.now ≡ size frame) × (size frame ≤ length out.old) }
    requires led { (ps : List ℕ) × Trail parents.now start end ps × (length ps ≤ length parents.now) }
    ensures { Written parents.now start end frame result out.old out.new }
{
    let n = write_back(parents, out, frame, start, end);
    out[..n].reverse();
    n
}
