// The constraint checks that a request counts.
ghost use Rattle.std.specs.Prelude.{◌≡◌, ◌<◌};
ghost use Rattle.splits.specs.Splits.{forbids};
ghost use Rattle.splits.specs.Checks.{values_in, others};
ghost use Rattle.splits.specs.Calls.{ChecksOf};
ghost use Rattle.splits.specs.Loops.Around.{allowed, LookedAt};

use crate::around::Around;
use crate::kind::Kind;
use crate::subproblem::Subproblem;
use crate::words;
use problem::{mask, tables};

// How many instantiated variables kind 1 looked at, and whether the last of them forbids the value. Both are told either way, so that neither an Option
// nor a Result would say it plainer.
#[derive(Clone, Copy)]
pub(crate) struct Looked {
    pub(crate) count: usize,
    pub(crate) conflict: bool,
}

impl Around<'_> {
    // Whether the value of the instantiated variable `i` forbids its own; one that is none of the d values does.
    fn is_forbidden_by(&self, i: usize) -> bool
        requires { (i < self.now.n) × (i ≡ self.now.variable → ⊥) }
        ensures { let a = self.now in result ≡ forbids (allowed a) a.top a.variable a.value i }
    {
        let a = mask::lowest(self.top.domain(i));
        !mask::has(
            tables::allowed(self.n, self.d, self.tables, i, self.variable, a),
            self.value,
        )
    }

    // The instantiated variables other than its own in rising order, up to and with the first that forbids its value, or all.
    pub(crate) fn look(&self) -> Looked
        ensures { LookedAt self.now result.count result.conflict }
    {
        let mut count = 0;
        let mut conflict = false;
        for i in 0..self.n {
            if i != self.variable && self.top.is_instantiated(i) {
                count += 1;
                if self.is_forbidden_by(i) {
                    conflict = true;
                    break;
                }
            }
        }
        Looked { count, conflict }
    }

    // The number of values in all other domains.
    fn values_in_others(&self) -> usize
        ensures { let a = self.now in result ≡ values_in (others a.variable) a.n a.top }
    {
        let mut sum = 0;
        for i in 0..self.n {
            if i != self.variable {
                sum += mask::count(self.top.domain(i));
            }
        }
        sum
    }
}

// The checks of a request; 0 where its words do not fit. Kinds 4 and 5 count none.
pub fn checks(top: Subproblem, n: usize, d: usize, tables: &[u16], request: &[u16]) -> usize
    ensures { ChecksOf top n d tables.now request.now result }
{
    let Some(around) = Around::of(top, n, d, tables, request) else {
        return 0;
    };
    let Ok(kind) = words::kind(request) else {
        return 0;
    };
    match kind {
        Kind::Backtracking => around.look().count,
        Kind::ForwardChecking | Kind::Idc => around.values_in_others(),
        Kind::Halving | Kind::Extraction => 0,
    }
}
