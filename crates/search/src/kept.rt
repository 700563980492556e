// Rows that are kept: what is allowed beside a value of a variable, made once in its place.
ghost use Rattle.std.specs.Prelude.{◌≡◌, ◌<◌};
ghost use Rattle.problem.specs.Problem.{table_of};
ghost use Rattle.problem.specs.Ranges.{Inside};
ghost use Rattle.problem.specs.Beside.{RowOf};
ghost use Rattle.search.specs.Loops.Lanes.{RowAt, RowPut};

use problem::beside;
use std::marker::Model;

// The rows of a problem's n variables and d values, `each` for a variable: its values from `each` - 1 on have the last place together.
#[derive(Drop)]
pub(crate) struct Kept<'a> {
    pub(crate) n: usize,
    pub(crate) d: usize,
    pub(crate) tables: &'a [u16],
    pub(crate) each: usize,
    pub(crate) rows: &'a mut [[u16; 32]],
}

// Clauses see the problem's numbers.
impl<'a> Model for Kept<'a> {
    ghost use Rattle.std.specs.Prelude.{◌<◌};
    ghost use Rattle.problem.specs.Ranges.{Sized};
    ghost use Rattle.search.specs.Loops.Lanes.{Numbers, Rows};

    ghost Value = { Numbers };

    ghost view = { λ k. record { n = k.n; d = k.d; tables = k.tables.now } };

    ghost invariant = { λ k. Sized k.n k.d k.tables.now × ((0 < k.each) × Rows k.each k.n k.d k.tables.now k.rows.now) };
}

impl<'a> Kept<'a> {
    // The row of a value of a variable, kept in its place.
    pub(crate) fn row(&mut self, variable: usize, value: usize) -> [u16; 32]
        requires { (variable < self.old.n) × (value < self.old.d) }
        ensures { let k = self.old in RowOf k.n (table_of k.n k.d k.tables) variable value result × (self.new ≡ k) }
    {
        let at = variable * self.each + value.min(self.each - 1);
        let tables = self.tables;
        let rows = &mut *self.rows;
        row(self.n, self.d, tables, rows, at, variable, value)
    }
}

// The row of a value of a variable out of kept rows, made in its place among them unless it is there: then it has the value alone at its own variable.
pub(crate) fn row(
    n: usize,
    d: usize,
    tables: &[u16],
    rows: &mut [[u16; 32]],
    at: usize,
    variable: usize,
    value: usize,
) -> [u16; 32]
    requires { Inside n d tables.now variable value × RowAt n d tables.now variable at rows.old }
    ensures { RowOf n (table_of n d tables.now) variable value result × RowPut at result rows.old rows.new }
{
    if rows[at][variable] != 1 << value {
        rows[at] = beside::row(n, d, tables, variable, value);
    }
    rows[at]
}
