// The planner for C: the five calls on numbers and byte slices, over the covered calls on words. The crate console_c exports them. Each returns the number
// of its refusal, 0 for none, as C has no enum of ours.
#![tactic(auto)]

mod calls;
mod fronts;
mod numbers;
mod parts;
mod rooms;

ghost use Rattle.console.specs.Calls.{OpensForC, RunsForC, ChoosesForC, SavesForC, LoadsForC};

use search::state::State;

// Opens a search.
pub fn rastwob_open(
    n: u32,
    d: u32,
    domains: &[u8],
    tables: &[u8],
    agenda: &mut [u8],
    steps: &mut u32,
    checks: &mut u64,
    subproblems: &mut u32,
) -> u32
    ensures { OpensForC n d domains.now tables.now agenda.old agenda.new steps.new checks.new subproblems.new result }
{
    match calls::open(n as usize, d as usize, domains, tables, agenda) {
        Ok(state) => {
            numbers::hand_state(state, steps, checks, subproblems);
            0
        }
        Err(refusal) => {
            numbers::hand_state(State::fresh(0), steps, checks, subproblems);
            u32::from(refusal)
        }
    }
}

// Runs a list of requests.
pub fn rastwob_run(
    n: u32,
    d: u32,
    domains: &[u8],
    tables: &[u8],
    agenda: &mut [u8],
    requests: &[u8],
    steps: &mut u32,
    checks: &mut u64,
    subproblems: &mut u32,
    verdict: &mut u32,
    taken: &mut u32,
) -> u32
    ensures { RunsForC n d domains.now tables.now agenda.old agenda.new requests.now steps.old steps.new checks.old checks.new subproblems.old subproblems.new verdict.new taken.new result }
{
    let state = numbers::state_of(*steps, *checks, *subproblems);
    let ran = calls::run(
        n as usize, d as usize, domains, tables, agenda, requests, state,
    );
    numbers::hand_out(ran, steps, checks, subproblems, verdict, taken)
}

// Runs up to `limit` steps by the house chooser.
pub fn rastwob_choose(
    n: u32,
    d: u32,
    domains: &[u8],
    tables: &[u8],
    agenda: &mut [u8],
    limit: u32,
    steps: &mut u32,
    checks: &mut u64,
    subproblems: &mut u32,
    verdict: &mut u32,
    taken: &mut u32,
) -> u32
    ensures { ChoosesForC n d domains.now tables.now agenda.old agenda.new limit steps.old steps.new checks.old checks.new subproblems.old subproblems.new verdict.new taken.new result }
{
    let state = numbers::state_of(*steps, *checks, *subproblems);
    let ran = calls::choose(
        n as usize,
        d as usize,
        domains,
        tables,
        agenda,
        limit as usize,
        state,
    );
    numbers::hand_out(ran, steps, checks, subproblems, verdict, taken)
}

// Writes the blocks of a search into the file buffer.
pub fn rastwob_save(
    n: u32,
    d: u32,
    domains: &[u8],
    tables: &[u8],
    agenda: &[u8],
    steps: u32,
    checks: u64,
    subproblems: u32,
    file: &mut [u8],
    blocks: &mut u32,
) -> u32
    ensures { SavesForC n d domains.now tables.now agenda.now steps checks subproblems file.old file.new blocks.new result }
{
    let state = numbers::state_of(steps, checks, subproblems);
    match calls::save(n as usize, d as usize, domains, tables, agenda, state, file) {
        Ok(count) => {
            *blocks = count as u32;
            0
        }
        Err(refusal) => {
            *blocks = 0;
            u32::from(refusal)
        }
    }
}

// Hands out what the file says and writes it into the lent memory.
pub fn rastwob_load(
    file: &[u8],
    domains: &mut [u8],
    tables: &mut [u8],
    agenda: &mut [u8],
    n: &mut u32,
    d: &mut u32,
    steps: &mut u32,
    checks: &mut u64,
    subproblems: &mut u32,
) -> u32
    ensures { LoadsForC file.now domains.old domains.new tables.old tables.new agenda.old agenda.new n.new d.new steps.new checks.new subproblems.new result }
{
    match calls::load(file, domains, tables, agenda) {
        Ok(header) => {
            *n = header.n as u32;
            *d = header.d as u32;
            numbers::hand_state(header.state, steps, checks, subproblems);
            0
        }
        Err(refusal) => {
            *n = 0;
            *d = 0;
            numbers::hand_state(State::fresh(0), steps, checks, subproblems);
            u32::from(refusal)
        }
    }
}
