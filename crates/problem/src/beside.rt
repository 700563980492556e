// The row of a value: what is allowed beside it, for all variables at once.
ghost use Rattle.std.specs.Prelude.{◌<◌};
ghost use Rattle.problem.specs.Beside.{RowOf};
ghost use Rattle.problem.specs.Calls.{Row};
ghost use Rattle.problem.specs.Loops.Tables.{allowed};

use crate::tables::Tables;
use crate::{mask, tables};

impl Tables<'_> {
    // The row of one of the d values of one of the n variables.
    fn row_at(&self, variable: usize, value: usize) -> [u16; 32]
        requires { (variable < self.now.n) × (value < self.now.d) }
        ensures { RowOf self.now.n (allowed self.now) variable value result }
    {
        let mut row = [65535u16; 32];
        for j in 0..self.n {
            row[j] = tables::allowed(self.n, self.d, self.words, variable, j, value);
        }
        row[variable] = mask::only(value);
        row
    }
}

// The row of a value of a variable: each other variable's mask of what is allowed beside it, its own of the value alone, all bits past the last; nothing
// in any place where the numbers do not fit.
pub fn row(n: usize, d: usize, tables: &[u16], variable: usize, value: usize) -> [u16; 32]
    ensures { Row n d tables.now variable value result }
{
    if tables::within(n, d, tables, variable, value) {
        return Tables {
            n,
            d,
            words: tables,
        }
        .row_at(variable, value);
    }
    [0u16; 32]
}
