// Numbers that go in and out: of a state, of what a run returns, of a refusal, that too of what is not turned into words.
ghost use Rattle.std.specs.Prelude.{◌≡◌, ◌<◌};
ghost use Rattle.problem.specs.Refused.{number_of};
ghost use Rattle.search.specs.Outcomes.{told_by, ran};
ghost use Rattle.console.specs.Calls.{state_of, unwhole, refused, HandsOut};
ghost use Rattle.console.specs.Loops.Parts.{Narrow};

use problem::refusal::Refusal;
use search::state::{Checks, Counts, Ran, State, Steps};
use searches::verdict::Verdict;

// The state of the three numbers.
pub(crate) fn state_of(steps: u32, checks: u64, subproblems: u32) -> State
    ensures { (result ≡ state_of steps checks subproblems) × (result.subproblems < 4294967296) }
{
    State {
        counts: Counts {
            steps: Steps(steps),
            checks: Checks(checks),
        },
        subproblems: subproblems as usize,
    }
}

// 1 or 2 if n or d deserves it, else 3.
pub(crate) fn unwhole(n: usize, d: usize) -> Refusal
    ensures { number_of result ≡ unwhole n d }
{
    match problem::first_checks::refusal_of_numbers(n, d) {
        Err(refusal) => refusal,
        Ok(()) => Refusal::Lengths,
    }
}

// A run that is refused so leaves the state as it is.
pub(crate) fn refused(n: usize, d: usize, state: State) -> Ran
    ensures { ran result ≡ refused n d state }
{
    Ran {
        verdict: Verdict::None,
        refusal: Some(unwhole(n, d)),
        taken: 0,
        state,
    }
}

// The number of a refusal, 0 for none.
fn told(refusal: Option<Refusal>) -> u32
    ensures { result ≡ told_by refusal }
{
    match refusal {
        None => 0,
        Some(refusal) => u32::from(refusal),
    }
}

// A state goes out by its three numbers.
pub(crate) fn hand_state(state: State, steps: &mut u32, checks: &mut u64, subproblems: &mut u32)
    requires { state.subproblems < 4294967296 }
    ensures { (steps.new ≡ state.counts.steps.0) × ((checks.new ≡ state.counts.checks.0) × (subproblems.new ≡ state.subproblems)) }
{
    *steps = state.counts.steps.0;
    *checks = state.counts.checks.0;
    *subproblems = state.subproblems as u32;
}

// What a run and the chooser return goes out by numbers; the refusal's is handed back.
pub(crate) fn hand_out(
    end: Ran,
    steps: &mut u32,
    checks: &mut u64,
    subproblems: &mut u32,
    verdict: &mut u32,
    taken: &mut u32,
) -> u32
    requires { Narrow (ran end) }
    ensures { HandsOut (ran end) steps.new checks.new subproblems.new verdict.new taken.new result }
{
    hand_state(end.state, steps, checks, subproblems);
    *verdict = u32::from(end.verdict);
    *taken = end.taken as u32;
    told(end.refusal)
}
