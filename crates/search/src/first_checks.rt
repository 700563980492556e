// The first checks: the refusals 1 to 6 that the words handed to a call deserve, before anything is changed.
ghost use Rattle.std.specs.Prelude.{◌≡◌, ◌≤◌, ◌<◌};
ghost use Rattle.problem.specs.Problem.{problem_of};
ghost use Rattle.problem.specs.Refused.{told};
ghost use Rattle.search.specs.Tests.FirstChecks.{whole_slots, refusal_of_search, sizes_refusal, open_refusal, search_refusal, run_refusal};
ghost use Rattle.search.specs.Loops.FirstTests.{Mirrored};

use crate::rules;
use crate::state::State;
use problem::refusal::Refusal;

// Whether so many words are 1 to 512 whole slots.
fn whole_slots(n: usize, words: usize) -> bool
    requires { n ≤ 32 }
    ensures { result ≡ whole_slots n words }
{
    let slots = words / (n + 2);
    words % (n + 2) == 0 && 1 <= slots && slots <= 512
}

// 6, or none.
fn refusal_of_search(
    n: usize,
    d: usize,
    domains: &[u16],
    tables: &[u16],
    agenda: &[u16],
    state: State,
) -> Result<(), Refusal>
    requires { Mirrored n d domains.now tables.now }
    ensures { told result ≡ refusal_of_search (problem_of n d domains.now tables.now) agenda.now state.counts.steps.0 state.counts.checks.0 state.subproblems }
{
    if agenda.len() / (n + 2) < state.subproblems {
        return Err(Refusal::Search);
    }
    if 496 * (state.counts.steps.0 as u64) < state.counts.checks.0 {
        return Err(Refusal::Search);
    }
    let used = state.subproblems * (n + 2);
    if problem::first_checks::bits_of(&agenda[used..]) != 0 {
        return Err(Refusal::Search);
    }
    if rules::all_obey(n, d, domains, tables, agenda, state.subproblems) {
        return Ok(());
    }
    Err(Refusal::Search)
}

// 1 to 3 of the numbers and of how many words are lent as domains, tables and agenda.
pub fn sizes_refusal(
    n: usize,
    d: usize,
    domains: usize,
    tables: usize,
    agenda: usize,
) -> Result<(), Refusal>
    ensures { told result ≡ sizes_refusal n d domains tables agenda }
{
    problem::first_checks::sizes_refusal(n, d, domains, tables)?;
    if whole_slots(n, agenda) {
        return Ok(());
    }
    Err(Refusal::Lengths)
}

// The first checks of opening: 1 to 5.
pub fn open_refusal(
    n: usize,
    d: usize,
    domains: &[u16],
    tables: &[u16],
    agenda: &[u16],
) -> Result<(), Refusal>
    ensures { told result ≡ open_refusal n d domains.now tables.now agenda.now }
{
    sizes_refusal(n, d, domains.len(), tables.len(), agenda.len())?;
    problem::first_checks::refusal(n, d, domains, tables)
}

// The first checks of a search, but for a run's requests: 1 to 6.
pub fn search_refusal(
    n: usize,
    d: usize,
    domains: &[u16],
    tables: &[u16],
    agenda: &[u16],
    state: State,
) -> Result<(), Refusal>
    ensures { told result ≡ search_refusal n d domains.now tables.now agenda.now state.counts.steps.0 state.counts.checks.0 state.subproblems }
{
    open_refusal(n, d, domains, tables, agenda)?;
    refusal_of_search(n, d, domains, tables, agenda, state)
}

// The first checks of a run: 1 to 6, its requests part of 3.
pub fn run_refusal(
    n: usize,
    d: usize,
    domains: &[u16],
    tables: &[u16],
    agenda: &[u16],
    requests: &[u16],
    state: State,
) -> Result<(), Refusal>
    ensures { told result ≡ run_refusal n d domains.now tables.now agenda.now requests.now state.counts.steps.0 state.counts.checks.0 state.subproblems }
{
    sizes_refusal(n, d, domains.len(), tables.len(), agenda.len())?;
    if requests.len() % (n + 3) != 0 {
        return Err(Refusal::Lengths);
    }
    search_refusal(n, d, domains, tables, agenda, state)
}
