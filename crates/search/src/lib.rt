// The search: the lent agenda, the first checks, opening, a run, the house chooser.
#![tactic(auto)]

mod agenda;
mod chooser;
pub mod first_checks;
mod kept;
mod lanes;
mod rules;
pub mod state;
mod step;

ghost use Rattle.std.specs.Prelude.{◌≡◌, ◌+◌, ◌/◌, ◌≤◌, ◌<◌, length};
ghost use Rattle.search.specs.Agenda.{stack_of, agenda_of};
ghost use Rattle.searches.specs.Verdicts.{verdict_of};
ghost use Rattle.problem.specs.Refused.{number_of};
ghost use Rattle.search.specs.Outcomes.{opened, ran};
ghost use Rattle.search.specs.Calls.{opening, search_of, Opens, Runs, Chooses};
ghost use Rattle.search.specs.Loops.Kept.{Ready};
ghost use Rattle.search.specs.Loops.Steps.{stop_of, gone_by, went_on, TakesOne, TakesAll, ChoosesOne, ChoosesAll};
ghost use Rattle.search.specs.Loops.Lanes.{Below};
ghost use Rattle.search.specs.Loops.Ends.{Openable, Used, request_at, refused_by, ended_by};

use crate::kept::Kept;
use crate::state::{Ran, State};
use crate::step::Stop;
use problem::refusal::Refusal;
use searches::verdict::Verdict;
use std::ops::ControlFlow;

// Opens a search.
pub fn open(
    n: usize,
    d: usize,
    domains: &[u16],
    tables: &[u16],
    agenda: &mut [u16],
) -> Result<State, Refusal>
    ensures { Opens n d domains.now tables.now agenda.old agenda.new (opened result) }
{
    first_checks::open_refusal(n, d, domains, tables, agenda)?;
    let subproblems = place_problem(n, domains, agenda);
    Ok(State::fresh(subproblems))
}

// The agenda cleared, and the problem in it unless a domain is empty; the number of subproblems.
fn place_problem(n: usize, domains: &[u16], agenda: &mut [u16]) -> usize
    requires { Openable n domains.now agenda.old }
    ensures { (result ≡ length (opening n domains.now)) × (agenda.new ≡ agenda_of n (length agenda.old) (opening n domains.now)) }
{
    agenda::clear(agenda);
    let problem = agenda::holding(n, domains, 0);
    if problem.is_empty(n) {
        return 0;
    }
    agenda::write_slot(n, agenda, 0, problem);
    1
}

// Runs a list of requests.
pub fn run(
    n: usize,
    d: usize,
    domains: &[u16],
    tables: &[u16],
    agenda: &mut [u16],
    requests: &[u16],
    state: State,
) -> Ran
    ensures { Runs n d domains.now tables.now agenda.old agenda.new requests.now state (ran result) }
{
    match first_checks::run_refusal(n, d, domains, tables, agenda, requests, state) {
        Err(refusal) => refused(refusal, state),
        Ok(()) => {
            let stop = run_on(n, d, tables, agenda, requests, state);
            ended(n, agenda, stop)
        }
    }
}

// The words of request `k` of a list.
fn request_at(n: usize, requests: &[u16], k: usize) -> &[u16]
    requires { (n ≤ 32) × (k < length requests.now / (n + 3)) }
    ensures { (result.now ≡ request_at n requests.now k) × (length result.now ≡ n + 3) }
{
    let at = k * (n + 3);
    let end = at + (n + 3);
    &requests[at..end]
}

// The requests one by one, until one is not taken.
fn run_on(
    n: usize,
    d: usize,
    tables: &[u16],
    agenda: &mut [u16],
    requests: &[u16],
    state: State,
) -> Stop
    requires { Ready n d tables.now agenda.old (search_of n agenda.old state) }
    ensures { TakesAll n d tables.now agenda.old agenda.new requests.now state (stop_of result) }
{
    let count = requests.len() / (n + 3);
    let mut state = state;
    for taken in 0..count {
        let request = request_at(n, requests, taken);
        match step_by(n, d, tables, agenda, request, state) {
            ControlFlow::Continue(next) => state = next,
            ControlFlow::Break(refusal) => {
                return Stop {
                    refusal,
                    taken,
                    state,
                };
            }
        }
    }
    Stop {
        refusal: None,
        taken: count,
        state,
    }
}

// One request of a run, unless the search is finished: it goes on with the next state, or stops, at a refusal or finished.
fn step_by(
    n: usize,
    d: usize,
    tables: &[u16],
    agenda: &mut [u16],
    request: &[u16],
    state: State,
) -> ControlFlow<Option<Refusal>, State>
    requires { Ready n d tables.now agenda.old (search_of n agenda.old state) × (length request.now ≡ n + 3) }
    ensures { TakesOne n d tables.now agenda.old agenda.new request.now state (gone_by state result) }
{
    let subproblems = state.subproblems;
    if subproblems != 0 {
        let top = agenda::read_slot(n, agenda, subproblems - 1);
        if !top.all_instantiated(n) {
            return go_on(step::take(top, n, d, tables, agenda, request, state));
        }
    }
    ControlFlow::Break(None)
}

// Runs up to `limit` steps by the house chooser.
pub fn choose(
    n: usize,
    d: usize,
    domains: &[u16],
    tables: &[u16],
    agenda: &mut [u16],
    limit: usize,
    state: State,
) -> Ran
    ensures { Chooses n d domains.now tables.now agenda.old agenda.new limit state (ran result) }
{
    match first_checks::search_refusal(n, d, domains, tables, agenda, state) {
        Err(refusal) => refused(refusal, state),
        Ok(()) => {
            let stop = choose_on(n, d, tables, agenda, limit, state);
            ended(n, agenda, stop)
        }
    }
}

// Chosen requests one by one, until one is not taken or the limit is met.
fn choose_on(
    n: usize,
    d: usize,
    tables: &[u16],
    agenda: &mut [u16],
    limit: usize,
    state: State,
) -> Stop
    requires { Ready n d tables.now agenda.old (search_of n agenda.old state) }
    ensures { ChoosesAll n d tables.now agenda.old agenda.new limit state (stop_of result) }
{
    let mut state = state;
    let none = [0u16; 32];
    let mut kept = Kept {
        n,
        d,
        tables,
        each: 16,
        rows: &mut [none; 512],
    };
    let lanes = lanes::below(n);
    for taken in 0..limit {
        match step_chosen(lanes, agenda, &mut kept, state) {
            ControlFlow::Continue(next) => state = next,
            ControlFlow::Break(refusal) => {
                return Stop {
                    refusal,
                    taken,
                    state,
                };
            }
        }
    }
    Stop {
        refusal: None,
        taken: limit,
        state,
    }
}

// One step of the chooser, unless the search is finished, in the same way.
fn step_chosen(
    lanes: [u16; 32],
    agenda: &mut [u16],
    kept: &mut Kept,
    state: State,
) -> ControlFlow<Option<Refusal>, State>
    requires { let k = kept.old in Ready k.n k.d k.tables agenda.old (search_of k.n agenda.old state) × Below k.n lanes }
    ensures { let k = kept.old in ChoosesOne k.n k.d k.tables agenda.old agenda.new state (gone_by state result) × (kept.new ≡ k) }
{
    let n = kept.n;
    let subproblems = state.subproblems;
    if subproblems != 0 {
        let top = agenda::read_lanes(lanes, n, agenda, subproblems - 1);
        if !top.all_instantiated(n) {
            return go_on(chooser::take_chosen(top, agenda, kept, state));
        }
    }
    ControlFlow::Break(None)
}

// A run goes on where a request is taken.
fn go_on(taken: Result<State, Refusal>) -> ControlFlow<Option<Refusal>, State>
    ensures { result ≡ went_on taken }
{
    match taken {
        Ok(next) => ControlFlow::Continue(next),
        Err(refusal) => ControlFlow::Break(Some(refusal)),
    }
}

// What a call returns that its first checks refuse.
fn refused(refusal: Refusal, state: State) -> Ran
    ensures { ran result ≡ refused_by (number_of refusal) state }
{
    Ran {
        verdict: Verdict::None,
        refusal: Some(refusal),
        taken: 0,
        state,
    }
}

// What a call returns that stopped so.
fn ended(n: usize, agenda: &[u16], stop: Stop) -> Ran
    requires { Used n stop.state.subproblems (length agenda.now) }
    ensures { ran result ≡ ended_by n agenda.now (stop_of stop) }
{
    let state = stop.state;
    Ran {
        verdict: verdict(n, agenda, state.subproblems),
        refusal: stop.refusal,
        taken: stop.taken,
        state,
    }
}

// The verdict of the first so many slots.
fn verdict(n: usize, agenda: &[u16], subproblems: usize) -> Verdict
    requires { Used n subproblems (length agenda.now) }
    ensures { result ≡ verdict_of n (stack_of n agenda.now subproblems) }
{
    if subproblems == 0 {
        return Verdict::Unsolvable;
    }
    let top = agenda::read_slot(n, agenda, subproblems - 1);
    if top.all_instantiated(n) {
        return Verdict::Solved;
    }
    Verdict::Running
}
