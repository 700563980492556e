// What a search is handed on with: two counters kept apart, the number of subproblems; and what a run returns.
ghost use Rattle.search.specs.Calls.{Fresh};

use problem::refusal::Refusal;
use searches::verdict::Verdict;

// Steps taken.
#[derive(Clone, Copy)]
pub struct Steps(pub u32);

// Constraint checks made.
#[derive(Clone, Copy)]
pub struct Checks(pub u64);

// Both counters.
#[derive(Clone, Copy)]
pub struct Counts {
    pub steps: Steps,
    pub checks: Checks,
}

// What is handed on with the agenda.
#[derive(Clone, Copy)]
pub struct State {
    pub counts: Counts,
    pub subproblems: usize,
}

impl State {
    // Counts of 0, and so many subproblems.
    pub fn fresh(subproblems: usize) -> State
        ensures { Fresh subproblems result }
    {
        State {
            counts: Counts {
                steps: Steps(0),
                checks: Checks(0),
            },
            subproblems,
        }
    }
}

// What a run and the chooser return: the refusal is that of the first checks, or of the request that it stopped at.
#[derive(Clone, Copy)]
pub struct Ran {
    pub verdict: Verdict,
    pub refusal: Option<Refusal>,
    pub taken: usize,
    pub state: State,
}
