// The lines of a report that tell of a building: its placement, and its issues. Each function puts its text behind the first `at` bytes and answers where the text ends.
#![tactic(auto)]

ghost use Rattle.std.specs.Prelude.{◌≡◌, ◌++◌, ◌/◌, ◌%◌, ◌^◌, get_or};
ghost use Rattle.model.specs.Report.{bytes, kind_names, placement_line, issue_line};
ghost use Rattle.text.specs.Writing.{Fits, Wrote};

use model::WallPlacement;
use text::Line;

// "placement INDEX footprint BOX collision BOX issues COUNT"
#[tactic(auto, unfolding(model::specs::Report::placement_line))]
pub fn put_placement(out: &mut [u8], at: usize, index: usize, placement: WallPlacement) -> usize
    requires { Fits out.old at (placement_line index placement) }
    ensures { Wrote out.old at (placement_line index placement) out.new result }
{
    let footprint = text::put_labelled(out, at, b"placement ", index as u64);
    let collision = text_boxes::put_labelled_box(
        out,
        footprint,
        b" footprint",
        placement.footprint,
    );
    let issues = text_boxes::put_labelled_box(out, collision, b" collision", placement.collision);
    text::put_ending(out, issues, b" issues ", placement.issues as u64)
}

// How the line of an issue begins: its kind stands in bits 25 and 26 of the word.
fn issue_label(word: u32) -> &'static [u8]
    ensures { result.now ≡ bytes "issue " ++ (bytes (get_or kind_names (word / 2 ^ 25 % 4) "") ++ bytes " ") }
{
    match (word >> 25) % 4 {
        0 => b"issue OutOfMap ",
        1 => b"issue UnbuildableTerrain ",
        2 => b"issue OverlapsObstacle ",
        _ => b"issue OverlapsBuilding ",
    }
}

// "issue KIND INDEX": the index stands in the low 13 bits of the word.
pub struct IssueWord;

impl Line for IssueWord {
    ghost text = { issue_line };

    fn put(out: &mut [u8], at: usize, word: u32) -> usize {
        text::put_ending(out, at, issue_label(word), (word % 8192) as u64)
    }
}
