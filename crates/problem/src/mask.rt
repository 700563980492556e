// A mask: a set of values, bit v for value v.
ghost use Rattle.std.specs.Prelude.{◌≡◌, ◌+◌, ◌/◌, ◌<◌, ◌≤◌};
ghost use Rattle.problem.specs.Masks.{size, smallest_of};
ghost use Rattle.problem.specs.Calls.{Count, Lowest, Only, Has, SmallerHalf};

// The number of values in a mask.
pub fn count(mask: u16) -> usize
    ensures { Count mask result }
{
    mask.count_ones() as usize
}

// The lowest value of a mask; 16 where it is empty.
pub fn lowest(mask: u16) -> usize
    ensures { Lowest mask result }
{
    mask.trailing_zeros() as usize
}

// The mask of one value; empty for 16 or more.
pub fn only(value: usize) -> u16
    ensures { Only value result }
{
    if value < 16 { 1 << value } else { 0 }
}

// Whether a value is in a mask.
pub fn has(mask: u16, value: usize) -> bool
    ensures { Has mask value result }
{
    value < 16 && (mask >> value) % 2 == 1
}

// The smallest values of a mask: half of them, rounded up.
pub fn smaller_half(mask: u16) -> u16
    ensures { SmallerHalf mask result }
{
    smallest_of(mask, (count(mask) + 1) / 2)
}

// The `k` smallest values of a mask, which has so many.
fn smallest_of(mask: u16, k: usize) -> u16
    requires { k ≤ size mask }
    ensures { result ≡ smallest_of 16 k mask }
{
    let mut half: u16 = 0;
    for i in 0..k {
        half |= only(lowest(mask & !half));
    }
    half
}
