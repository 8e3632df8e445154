// A difference grid: rectangles are stamped at their four corners, and two passes of running sums turn the stamps into how many
// rectangles cover each place. The grid lies row by row at the front of a slice that the caller lends; what lies behind it is left
// alone. All arithmetic is modulo 2^32, so no stamp and no sum needs a bound: only a count has to be below 2^32.
#![tactic(auto)]

ghost use Rattle.std.specs.Prelude.{◌≡◌, ◌+◌, ◌*◌, ◌<◌, ◌≤◌, length};
ghost use Rattle.grid.specs.Grid.{Boxed, Finished, Summed, bump};

// -1 modulo 2^32.
const LESS: u32 = u32::MAX;

// Adds v to entry i, modulo 2^32.
fn add_at(grid: &mut [u32], i: usize, v: u32)
    requires { i < length grid.old }
    ensures { grid.new ≡ bump grid.old i v }
{
    grid[i] = grid[i].wrapping_add(v);
}

// Stamps the rectangle from column left up to right and row top up to bottom, both half open. One that is empty changes nothing.
pub fn add_rect(
    grid: &mut [u32],
    stride: usize,
    left: usize,
    top: usize,
    right: usize,
    bottom: usize,
)
    requires right_lt_stride { right < stride }
    requires stride_in_bounds { (bottom + 1) * stride ≤ length grid.old }
    ensures { Boxed stride left top right bottom grid.old grid.new }
{
    if left >= right {
        return;
    }
    if top >= bottom {
        return;
    }
    let upper = top * stride;
    let lower = bottom * stride;
    add_at(grid, upper + left, 1);
    add_at(grid, upper + right, LESS);
    add_at(grid, lower + left, LESS);
    add_at(grid, lower + right, 1);
}

// Adds to each entry from step up to n what stands step places before it, from the front on, so that each becomes a running sum.
fn sums(grid: &mut [u32], step: usize, n: usize)
    requires step_nonzero { (0 < step) × (step ≤ n) }
    requires n_in_bounds { n ≤ length grid.old }
    ensures { Summed step n grid.old grid.new }
{
    for k in step..n {
        grid[k] = grid[k].wrapping_add(grid[k - step]);
    }
}

// Turns differences into counts: running sums along the whole grid, since the last column of each row brings a row's sum back to
// 0, and then down the columns.
pub fn finish(grid: &mut [u32], stride: usize, rows: usize)
    requires stride_nonzero { (0 < stride) × (0 < rows) }
    requires stride_in_bounds { rows * stride ≤ length grid.old }
    ensures { Finished stride rows grid.old grid.new }
{
    let n = rows * stride;
    sums(grid, 1, n);
    sums(grid, stride, n);
}
