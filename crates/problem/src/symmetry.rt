// Symmetry, the first check that 5 is about: the masks of each two variables, one way and the other, as matrices of bits.
ghost use Rattle.std.specs.Prelude.{◌≡◌, ◌-◌, ◌≤◌, ◌<◌, ◌++◌, length, replicate, true};
ghost use Rattle.problem.specs.Lists.{every};
ghost use Rattle.problem.specs.Loops.Matrices.{matrix_of};
ghost use Rattle.problem.specs.Loops.FirstTests.{row_below, row_both_ways, padded, one_way};
ghost use Rattle.problem.specs.Loops.Tables.{allowed};

use crate::matrix;
use crate::matrix::Matrix;
use crate::tables::Tables;

// Up to 16 rows, zeros after them.
fn padded(rows: &[u16]) -> [u16; 16]
    requires { length rows.now ≤ 16 }
    ensures { result ≡ rows.now ++ replicate (16 - length rows.now) 0 }
{
    let mut all = [0u16; 16];
    all[..rows.len()].copy_from_slice(rows);
    all
}

impl Tables<'_> {
    // The masks of the values of `j` allowed beside each value of `i`; 16 of them as they stand. Always inlined, as all that `row_both_ways` compiles twice.
    #[inline(always)]
    fn matrix_at(&self, i: usize, j: usize) -> Matrix
        requires { (i < self.now.n) × (j < self.now.n) }
        ensures { result ≡ matrix_of (padded self.now.d (allowed self.now i j)) }
    {
        let at = (i * self.n + j) * self.d;
        let rows = &self.words[at..at + self.d];
        if self.d == 16 {
            return matrix::matrix_of(rows);
        }
        matrix::matrix_of(&padded(rows))
    }

    // Bits for the values of `i` and `j` that are allowed one way only; 0 for none.
    #[inline(always)]
    fn one_way(&self, i: usize, j: usize) -> u64
        requires { (i < self.now.n) × (j < self.now.n) }
        ensures { result ≡ one_way self.now.d (allowed self.now) i j }
    {
        matrix::difference(matrix::columns(self.matrix_at(i, j)), self.matrix_at(j, i))
    }
}

// Tables of which no mask that is read has a bit at d or above.
#[derive(Clone, Copy)]
pub(crate) struct Narrow<'a> {
    pub(crate) tables: Tables<'a>,
    ghost below: { every tables.n (row_below tables.n tables.d (allowed tables)) ≡ true },
}

impl Narrow<'_> {
    // Whether no value of `i` is allowed one way only with one of a variable before it: so each two variables are looked at once.
    #[inline(always)]
    fn part_both_ways(&self, i: usize) -> bool
        requires { i < self.now.tables.n }
        ensures { result ≡ row_both_ways self.now.tables.d (allowed self.now.tables) i }
    {
        let mut bits: u64 = 0;
        for j in 0..i {
            bits |= self.tables.one_way(i, j);
        }
        bits == 0
    }

    // The same. The loop is compiled for 16 values too, with that number written out: then the machine takes several rows at once.
    fn row_both_ways(&self, i: usize) -> bool
        requires { i < self.now.tables.n }
        ensures { result ≡ row_both_ways self.now.tables.d (allowed self.now.tables) i }
    {
        let Tables { n, d, words } = self.tables;
        if d == 16 {
            let tables = Tables { n, d: 16, words };
            return Narrow { tables }.part_both_ways(i);
        }
        self.part_both_ways(i)
    }

    // Whether the values of every two variables are allowed both ways or neither.
    pub(crate) fn both_ways(&self) -> bool
        ensures { result ≡ every self.now.tables.n (row_both_ways self.now.tables.d (allowed self.now.tables)) }
    {
        (0..self.tables.n).all(|i| self.row_both_ways(i))
    }
}
