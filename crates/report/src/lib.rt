// A report as text in a buffer that the caller lends. The inner function puts its text behind the first `at` bytes and answers where the text ends.
#![tactic(auto)]

ghost use Rattle.std.specs.Prelude.{◌≤◌, length, take};
ghost use Rattle.model.specs.Report.{placement_lines, report_text, refused_text};
ghost use Rattle.text.specs.Writing.{Fits, Wrote};
ghost use Rattle.report.specs.Printing.{issue_sum, refused_room, Printable};

use model::{WallCheck, WallPlacement};
use report_passage::PointWord;
use report_placements::IssueWord;

// Each building's line, and behind it the lines of its issues: the words are those of one building after the other.
fn put_placements(out: &mut [u8], at: usize, placements: &[WallPlacement], words: &[u32]) -> usize
    requires issues_there { issue_sum placements.now ≤ length words.now }
    requires room { Fits out.old at (placement_lines 0 placements.now words.now) }
    ensures { Wrote out.old at (placement_lines 0 placements.now words.now) out.new result }
{
    let mut end = at;
    let mut rest = words;
    for (index, placement) in placements.iter().enumerate() {
        let (own, others) = rest.split_at(placement.issues);
        let next = report_placements::put_placement(out, end, index, *placement);
        end = text::put_lines::<IssueWord>(out, next, own);
        rest = others;
    }
    end
}

// What the program prints for an accepted query of `count` buildings, at the start of the buffer: the issue words and the route points stand first in their lists.
pub fn report(
    out: &mut [u8],
    check: WallCheck,
    count: usize,
    issues: &[u32],
    route: &[u32],
) -> usize
    requires { Printable check count issues.now route.now out.old }
    ensures { Wrote out.old 0 (report_text (take count check.placements) issues.now check.passed (take check.passed.points route.now)) out.new result }
{
    let first = text::put(out, 0, b"check ok\n");
    let passage = put_placements(out, first, &check.placements[..count], issues);
    let end = report_passage::put_passage(out, passage, check.passed);
    text::put_lines::<PointWord>(out, end, &route[..check.passed.points])
}

// What the program prints for a refused query, at the start of the buffer.
#[tactic(auto, using(crate::proofs::Sizes::refused_short), unfolding(model::specs::Report::refused_text))]
pub fn refused(out: &mut [u8], number: usize) -> usize
    requires { refused_room ≤ length out.old }
    ensures { Wrote out.old 0 (refused_text number) out.new result }
{
    text::put_ending(out, 0, b"refused ", number as u64)
}
