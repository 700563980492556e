// A value of a variable, and what a split around it reads: the subproblem, and tables in which the variable and the value have a place.
ghost use Rattle.problem.specs.Ranges.{Inside};

use crate::subproblem::Subproblem;
use crate::words;
use problem::tables;

#[derive(Clone, Copy)]
pub(crate) struct Around<'a> {
    pub(crate) top: Subproblem,
    pub(crate) n: usize,
    pub(crate) d: usize,
    pub(crate) tables: &'a [u16],
    pub(crate) variable: usize,
    pub(crate) value: usize,
    ghost fits: { Inside n d tables.now variable value },
}

impl<'a> Around<'a> {
    ghost use Rattle.splits.specs.Loops.Around.{Found};

    // The value of the variable that a request names; none where its words do not fit.
    #[inline(always)]
    pub(crate) fn of(
        top: Subproblem,
        n: usize,
        d: usize,
        tables: &'a [u16],
        request: &[u16],
    ) -> Option<Around<'a>>
        ensures { Found top n d tables.now request.now result }
    {
        let variable = words::variable(request);
        let value = words::value(request);
        if !tables::within(n, d, tables, variable, value) {
            return None;
        }
        Some(Around {
            top,
            n,
            d,
            tables,
            variable,
            value,
        })
    }
}
