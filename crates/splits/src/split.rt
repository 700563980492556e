// The five splits: the pieces of a request, one by one.
ghost use Rattle.std.specs.Prelude.{◌≡◌, ◌+◌, ◌≤◌, ◌<◌, cond, ltb};
ghost use Rattle.splits.specs.Requests.{kind_of, variable_of};
ghost use Rattle.splits.specs.Kinds.{kind_number};
ghost use Rattle.splits.specs.Splits.{backtracked, checked, inferred, halved, extracted, candidates};
ghost use Rattle.splits.specs.Calls.{Piece, Candidates};
ghost use Rattle.splits.specs.Loops.Around.{allowed};
ghost use Rattle.splits.specs.Loops.Kinds.{around_value};

use crate::around::Around;
use crate::kind::Kind;
use crate::subproblem::Subproblem;
use crate::words;
use problem::{beside, mask};

impl Around<'_> {
    // Backtracking: the variable instantiated to the value, emptied where an instantiated value forbids it; then the rest.
    fn backtracking(&self, k: usize) -> Subproblem
        ensures { let a = self.now in result ≡ backtracked a.n (allowed a) a.top a.variable a.value k }
    {
        if k != 0 {
            return self.top.without(self.variable, mask::only(self.value));
        }
        if self.look().conflict {
            return self.top.cut(self.variable, 0);
        }
        self.top.instantiate(self.variable, self.value)
    }

    // Forward checking: the precluded piece; then the rest.
    fn forward_checking(&self, k: usize) -> Subproblem
        ensures { let a = self.now in result ≡ checked a.n (allowed a) a.top a.variable a.value k }
    {
        if k != 0 {
            return self.top.without(self.variable, mask::only(self.value));
        }
        self.top.precluded(
            self.variable,
            beside::row(self.n, self.d, self.tables, self.variable, self.value),
        )
    }

    // IDC: the precluded piece; then one for each other variable, with V's own place empty.
    fn idc(&self, k: usize) -> Subproblem
        requires { k ≤ self.now.n }
        ensures { let a = self.now in result ≡ inferred a.n (allowed a) a.top a.variable a.value k }
    {
        let row = beside::row(self.n, self.d, self.tables, self.variable, self.value);
        if k == 0 {
            return self.top.precluded(self.variable, row);
        }
        let j = k - 1;
        if j == self.variable {
            return self.top.cut(self.variable, 0);
        }
        self.top
            .without(self.variable, mask::only(self.value))
            .cut_before(self.variable, row, j)
            .without(j, row[j])
    }
}

// Halving: the variable's smaller half; then the rest. The subproblem itself where the variable is none of the n.
fn halving(top: Subproblem, n: usize, request: &[u16], k: usize) -> Subproblem
    ensures { result ≡ cond (ltb (variable_of request.now) n) (halved top (variable_of request.now) k) top }
{
    let variable = words::variable(request);
    if n <= variable {
        return top;
    }
    let half = mask::smaller_half(top.domain(variable));
    if k != 0 {
        return top.without(variable, half);
    }
    top.cut(variable, half)
}

// Extraction: the target; then one for each variable.
fn extraction(top: Subproblem, n: usize, request: &[u16], k: usize) -> Subproblem
    requires { (n ≤ 32) × (k ≤ n) }
    ensures { result ≡ extracted n top request.now k }
{
    if k == 0 {
        return top.at_targets(request, n);
    }
    let j = k - 1;
    top.at_targets(request, j)
        .without(j, words::target(request, j))
}

// How many candidates for a piece the kind of a request has, of which those that are not empty are its pieces; 0 for more than 32 variables.
pub fn candidates(n: usize, request: &[u16]) -> usize
    ensures { Candidates n request.now result }
{
    if 32 < n {
        return 0;
    }
    let Ok(kind) = words::kind(request) else {
        return 0;
    };
    match kind {
        Kind::Idc | Kind::Extraction => n + 1,
        Kind::Backtracking | Kind::ForwardChecking | Kind::Halving => 2,
    }
}

// Kinds 1 to 3, which split around a value. The subproblem itself where the words do not fit. Each arm returns, here and in `piece`: the prover
// then has no place where pieces meet.
fn around_value(
    top: Subproblem,
    n: usize,
    d: usize,
    tables: &[u16],
    kind: Kind,
    request: &[u16],
    k: usize,
) -> Subproblem
    requires { (k < candidates n request.now) × ((kind_number kind ≡ kind_of request.now) × (kind_of request.now ≤ 3)) }
    ensures { result ≡ around_value top n d tables.now request.now k }
{
    let Some(around) = Around::of(top, n, d, tables, request) else {
        return top;
    };
    match kind {
        Kind::Backtracking => return around.backtracking(k),
        Kind::ForwardChecking => return around.forward_checking(k),
        _ => return around.idc(k),
    }
}

// The k-th candidate of a request, from 0, empty where it is no piece; the subproblem itself past the last, or where the words do not fit.
pub fn piece(
    top: Subproblem,
    n: usize,
    d: usize,
    tables: &[u16],
    request: &[u16],
    k: usize,
) -> Subproblem
    ensures { Piece top n d tables.now request.now k result }
{
    if candidates(n, request) <= k {
        return top;
    }
    let Ok(kind) = words::kind(request) else {
        return top;
    };
    match kind {
        Kind::Halving => return halving(top, n, request, k),
        Kind::Extraction => return extraction(top, n, request, k),
        _ => return around_value(top, n, d, tables, kind, request, k),
    }
}
