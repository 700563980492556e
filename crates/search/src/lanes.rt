// Loops over all 32 masks of a subproblem; those of a step have a fixed number of turns and no way out, so that the machine takes eight masks at once.
// A lane is the place of one mask, of one variable among 32 but in `sides`; `lanes` have all bits or none in each.
ghost use Rattle.std.specs.Prelude.{◌≡◌, ◌+◌, ◌*◌, ◌<◌, ◌≤◌};
ghost use Rattle.problem.specs.Masks.{bit, size};
ghost use Rattle.search.specs.Loops.Lanes.{Half, Beyond, Below, LeastKey, Sides, Widened, BeforeTo};

use splits::at_once;

// The half of a set of variables that begins at `from`: the low one at 0, the high one at 16.
fn half(set: u32, from: usize) -> u16
    requires { from ≤ 16 }
    ensures { Half set from result }
{
    ((set >> from) % 65536) as u16
}

// The variables from `i` on, up to the last of 32.
pub(crate) fn beyond(i: usize) -> u32
    requires { i ≤ 32 }
    ensures { Beyond i result }
{
    (4294967296u64 - (1 << i)) as u32
}

// All bits for each of the first `n` variables, none for the others.
pub(crate) fn below(n: usize) -> [u16; 32]
    requires { n ≤ 32 }
    ensures { Below n result }
{
    let mut lanes = [0u16; 32];
    lanes[..n].fill(65535);
    lanes
}

// What puts an instantiated variable after all others.
fn far(half: u16, i: usize) -> u16
    requires { i < 16 }
    ensures { result ≡ 1024 * bit half i }
{
    if (half >> i) % 2 == 1 { 1024 } else { 0 }
}

// The key of a variable, `i` in its half of the instantiated: the fewer values the less, then the lower number.
fn key(domain: u16, half: u16, i: usize, variable: usize) -> u16
    requires { (i < 16) × (variable < 32) }
    ensures { result ≡ size domain * 32 + variable + 1024 * bit half i }
{
    at_once::count(domain) * 32 + (variable as u16) + far(half, i)
}

// The least key of all.
pub(crate) fn least_key(domains: [u16; 32], marked: u32) -> u16
    ensures { LeastKey domains marked 16 result }
{
    let low = half(marked, 0);
    let high = half(marked, 16);
    let mut best: u16 = 2047;
    for i in 0..16 {
        best = best.min(key(domains[i], low, i, i));
        best = best.min(key(domains[i + 16], high, i, i + 16));
    }
    best
}

// No bits in 32 lanes, then all in 32: from lane 32 - j on, all bits for each variable from j on and none for those before.
pub(crate) fn sides() -> [u16; 64]
    ensures { Sides 64 result }
{
    let mut lanes = [0u16; 64];
    for i in 32..64 {
        lanes[i] = 65535;
    }
    lanes
}

// A mask where its lane has no bits, all bits where it has all.
fn widened(mask: u16, lane: u16) -> u16
    ensures { Widened mask lane result }
{
    mask | lane
}

// The row for the variables before `j`, all values for the others.
pub(crate) fn before(row: [u16; 32], sides: &[u16], j: usize) -> [u16; 32]
    requires { (j < 32) × Sides 64 sides.now }
    ensures { BeforeTo row j 32 result }
{
    let mut masks = [0u16; 32];
    for i in 0..32 {
        masks[i] = widened(row[i], sides[32 - j + i]);
    }
    masks
}
