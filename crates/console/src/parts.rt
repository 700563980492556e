// A list of requests of any length, turned into words and run a part at a time.
ghost use Rattle.std.specs.Prelude.{◌≡◌, ◌%◌, ◌≤◌, ◌<◌, length};
ghost use Rattle.search.specs.Outcomes.{ran as ran_of};
ghost use Rattle.search.specs.Calls.{Runs};
ghost use Rattle.word_bytes.specs.Bytes.{words_of};
ghost use Rattle.console.specs.Loops.Parts.{goes_on, WholeAt, WholeList, Listed, Part, Narrow};

use search::state::{Ran, State};
use searches::verdict::Verdict;

// A run: the words of the problem, the requests in bytes, a list of whole ones, and the state.
#[derive(Clone, Copy)]
pub(crate) struct Run<'a> {
    pub(crate) n: usize,
    pub(crate) d: usize,
    pub(crate) domains: &'a [u16],
    pub(crate) tables: &'a [u16],
    pub(crate) requests: &'a [u8],
    pub(crate) state: State,
    ghost listed: { WholeList n (length requests.now) },
    ghost narrow: { state.subproblems < 4294967296 },
}

// Whether a run that ended so goes on with the next part: none refused and still running.
#[tactic(auto, unfolding(crate::specs::Loops::Parts::goes_on))]
fn goes_on(ran: Ran) -> bool
    ensures { result ≡ goes_on (ran_of ran) }
{
    ran.refusal.is_none() && ran.verdict == Verdict::Running
}

// The end of the part that begins at `at`: 200 requests on, or the list's end.
fn end_of(n: usize, at: usize, bytes: usize) -> usize
    requires { Listed n bytes × ((at ≤ bytes) × WholeAt n at) }
    ensures { Part n at bytes result }
{
    let part = 400 * (n + 3);
    if bytes - at <= part {
        return bytes;
    }
    at + part
}

// Runs the requests of one part, from a state.
fn run_part(run: &Run, agenda: &mut [u16], requests: &[u8], state: State) -> Ran
    requires { (length requests.now % 2 ≡ 0) × (length requests.now ≤ 14000) }
    ensures { let r = run.now in Runs r.n r.d r.domains.now r.tables.now agenda.old agenda.new (words_of requests.now) state (ran_of result) }
{
    let mut words = [0u16; 7000];
    let count = word_bytes::words_of(requests, &mut words);
    search::run(
        run.n,
        run.d,
        run.domains,
        run.tables,
        agenda,
        &words[..count],
        state,
    )
}

// Runs part after part, until the list ends or one ends otherwise than still running with none refused. It ends as the last part does, the requests that all
// took added up.
pub(crate) fn run_parts(run: &Run, agenda: &mut [u16]) -> Ran
    ensures { let r = run.now in Runs r.n r.d r.domains.now r.tables.now agenda.old agenda.new (words_of r.requests.now) r.state (ran_of result) × Narrow (ran_of result) }
{
    let mut state = run.state;
    let mut at = 0;
    let mut taken = 0;
    // Not `for` over `chunks`, which gives none of an empty list: that is run too.
    loop {
        let end = end_of(run.n, at, run.requests.len());
        let mut ran = run_part(run, agenda, &run.requests[at..end], state);
        taken += ran.taken;
        ran.taken = taken;
        if end == run.requests.len() || !goes_on(ran) {
            return ran;
        }
        state = ran.state;
        at = end;
    }
}
