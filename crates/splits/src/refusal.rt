// Which refusal a request deserves, of 7 to 10.
ghost use Rattle.std.specs.Prelude.{◌≡◌, cond, ◌||◌};
ghost use Rattle.problem.specs.Refused.{told};
ghost use Rattle.splits.specs.Requests.{variable_of, value_of};
ghost use Rattle.splits.specs.Kinds.{kind_number};
ghost use Rattle.splits.specs.Tests.Refusals.{bad, some_bad, all_same};
ghost use Rattle.splits.specs.Loops.Kinds.{deserves9, refusal_of_variable};
ghost use Rattle.splits.specs.Calls.{RefusalOf};

use crate::kind::Kind;
use crate::subproblem::Subproblem;
use crate::words;
use problem::mask;
use problem::refusal::Refusal;

// Whether a target is empty or not part of the domain.
fn is_target_bad(target: u16, domain: u16) -> bool
    ensures { result ≡ bad target domain }
{
    target == 0 || target & !domain != 0
}

// The refusal that a request deserves, in the order 7, 8, 9, 10.
pub fn refusal(top: Subproblem, n: usize, d: usize, request: &[u16]) -> Result<(), Refusal>
    ensures { RefusalOf top n d request.now (told result) }
{
    match words::kind(request)? {
        Kind::Extraction => refusal_of_targets(top, n, request),
        kind => refusal_of_variable(top, n, d, kind, request),
    }
}

// 10 or none: a target is bad, or every target is the domain itself; 10 for more than 32 variables, too.
fn refusal_of_targets(top: Subproblem, n: usize, request: &[u16]) -> Result<(), Refusal>
    ensures { told result ≡ cond (some_bad n top request.now || all_same n top request.now) 10 0 }
{
    if 32 < n {
        return Err(Refusal::Targets);
    }
    let mut all_same = true;
    for i in 0..n {
        let target = words::target(request, i);
        let domain = top.domain(i);
        if is_target_bad(target, domain) {
            return Err(Refusal::Targets);
        }
        if target != domain {
            all_same = false;
        }
    }
    if all_same {
        return Err(Refusal::Targets);
    }
    Ok(())
}

// Whether V, with this domain, deserves 9: kind 4, if it has one value; kinds 1 to 3, if v is d or more, or not in it.
fn deserves_9(domain: u16, d: usize, kind: Kind, request: &[u16]) -> bool
    ensures { result ≡ deserves9 d domain (kind_number kind) (value_of request.now) }
{
    if kind == Kind::Halving {
        return mask::count(domain) == 1;
    }
    let value = words::value(request);
    d <= value || !mask::has(domain, value)
}

// 8, 9 or none, of kinds 1 to 4.
fn refusal_of_variable(
    top: Subproblem,
    n: usize,
    d: usize,
    kind: Kind,
    request: &[u16],
) -> Result<(), Refusal>
    ensures { told result ≡ refusal_of_variable n d top (kind_number kind) (variable_of request.now) (value_of request.now) }
{
    let variable = words::variable(request);
    if n <= variable || top.is_instantiated(variable) {
        return Err(Refusal::Variable);
    }
    if deserves_9(top.domain(variable), d, kind, request) {
        return Err(Refusal::Value);
    }
    Ok(())
}
