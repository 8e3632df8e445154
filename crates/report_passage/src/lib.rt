// The lines of a report that tell of the passage, and of the route's points. Each function puts its text behind the first `at` bytes and answers where the text ends.
#![tactic(auto)]

ghost use Rattle.std.specs.Prelude.{◌≡◌};
ghost use Rattle.model.specs.Report.{point_line};
ghost use Rattle.text.specs.Writing.{Fits, Wrote};
ghost use Rattle.report_passage.specs.Passage.{verdict_text, passage_text};

use model::{Passed, WallPassage};
use text::Line;

// "passage VERDICT"
fn verdict(passage: WallPassage) -> &'static [u8]
    ensures { result.now ≡ verdict_text passage }
{
    match passage {
        WallPassage::StartBlocked => b"passage StartBlocked",
        WallPassage::EndBlocked => b"passage EndBlocked",
        WallPassage::Open => b"passage Open",
        WallPassage::AlreadyDisconnected => b"passage AlreadyDisconnected",
        WallPassage::BlockedWithinWindow => b"passage BlockedWithinWindow",
    }
}

// The verdict, the baseline and the number of points, a line each.
pub fn put_passage(out: &mut [u8], at: usize, passed: Passed) -> usize
    requires { Fits out.old at (passage_text passed) }
    ensures { Wrote out.old at (passage_text passed) out.new result }
{
    let next = text::put(out, at, verdict(passed.passage));
    let label: &[u8] = if passed.baseline_passable {
        b"\nbaseline 1\nroute "
    } else {
        b"\nbaseline 0\nroute "
    };
    text::put_ending(out, next, label, passed.points as u64)
}

// "X Y": the upper and the lower half of the word.
pub struct PointWord;

impl Line for PointWord {
    ghost text = { point_line };

    #[tactic(auto, unfolding(model::specs::Report::point_line))]
    fn put(out: &mut [u8], at: usize, word: u32) -> usize {
        let next = text::put_number(out, at, (word / 65536) as u64);
        text::put_ending(out, next, b" ", (word % 65536) as u64)
    }
}
