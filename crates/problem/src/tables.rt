// The problem's tables: for each two variables and each value of the first, the values allowed beside it.
ghost use Rattle.std.specs.Prelude.{◌≡◌, ◌+◌, ◌*◌, ◌<◌};
ghost use Rattle.problem.specs.Ranges.{sized, Sized};
ghost use Rattle.problem.specs.Problem.{Words};
ghost use Rattle.problem.specs.Calls.{Within, Allowed};

// Tables of n variables and d values: as many words as those have.
#[derive(Clone, Copy)]
pub(crate) struct Tables<'a> {
    pub(crate) n: usize,
    pub(crate) d: usize,
    pub(crate) words: &'a [u16],
    ghost fit: { Sized n d words.now },
    ghost masks: { Words words.now },
}

// Whether n, d and the tables fit each other.
fn fits(n: usize, d: usize, tables: &[u16]) -> bool
    ensures { result ≡ sized n d tables.now }
{
    n <= 32 && d <= 16 && tables.len() == n * n * d
}

// Whether they do, and the variable and the value are among theirs.
pub fn within(n: usize, d: usize, tables: &[u16], variable: usize, value: usize) -> bool
    ensures { Within n d tables.now variable value result }
{
    variable < n && value < d && fits(n, d, tables)
}

// The mask of the values of `j` allowed beside value `a` of `i`: none where the numbers do not fit, all where `j` is `i`, whose place is not read.
pub fn allowed(n: usize, d: usize, tables: &[u16], i: usize, j: usize, a: usize) -> u16
    ensures { Allowed n d tables.now i j a result }
{
    if n <= j || !within(n, d, tables, i, a) {
        return 0;
    }
    if i == j {
        return 65535;
    }
    tables[(i * n + j) * d + a]
}
