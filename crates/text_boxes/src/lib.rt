// Signed numbers and boxes as text in a buffer that the caller lends. Each function puts its text behind the first `at` bytes and answers where the text ends.
#![tactic(auto)]

ghost use Rattle.std.specs.Prelude.{◌++◌};
ghost use Rattle.model.specs.Report.{spaced, box_text};
ghost use Rattle.text.specs.Writing.{Fits, Wrote};

use model::PixelRect;

// A space, and the number.
fn put_spaced(out: &mut [u8], at: usize, n: i32) -> usize
    requires { Fits out.old at (spaced n) }
    ensures { Wrote out.old at (spaced n) out.new result }
{
    let label: &[u8] = if n < 0 { b" -" } else { b" " };
    text::put_labelled(out, at, label, n.unsigned_abs() as u64)
}

// " LEFT TOP RIGHT BOTTOM"
fn put_box(out: &mut [u8], at: usize, rect: PixelRect) -> usize
    requires { Fits out.old at (box_text rect) }
    ensures { Wrote out.old at (box_text rect) out.new result }
{
    let top = put_spaced(out, at, rect.left);
    let right = put_spaced(out, top, rect.top);
    let bottom = put_spaced(out, right, rect.right);
    put_spaced(out, bottom, rect.bottom)
}

// The label and the box behind it.
pub fn put_labelled_box(out: &mut [u8], at: usize, label: &[u8], rect: PixelRect) -> usize
    requires { Fits out.old at (label.now ++ box_text rect) }
    ensures { Wrote out.old at (label.now ++ box_text rect) out.new result }
{
    let next = text::put(out, at, label);
    put_box(out, next, rect)
}
