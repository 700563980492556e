// A step: the top subproblem gives way to the pieces of a request, in the lent agenda.
ghost use Rattle.std.specs.Prelude.{◌≡◌, true, ◌+◌, ◌<◌, ◌^◌, length, ltb};
ghost use Rattle.problem.specs.Problem.{table_of};
ghost use Rattle.problem.specs.Refused.{told};
ghost use Rattle.splits.specs.Splits.{pieces, candidates};
ghost use Rattle.splits.specs.Checks.{checks};
ghost use Rattle.splits.specs.Calls.{readable};
ghost use Rattle.problem.specs.Ranges.{Sized};
ghost use Rattle.search.specs.Loops.Steps.{counted, taken_by, Placed, Taking, TakesOne, refusal_for};

use crate::agenda;
use crate::state::{Checks, Counts, State, Steps};
use problem::refusal::Refusal;
use problem::tables;
use splits::kind::Kind;
use splits::subproblem::Subproblem;
use splits::{at_once, checks, refusal, split};

// Where a run stops: the refusal, if one stopped it, the requests taken and the state it leaves.
#[derive(Clone, Copy)]
pub(crate) struct Stop {
    pub(crate) refusal: Option<Refusal>,
    pub(crate) taken: usize,
    pub(crate) state: State,
}

// The state after a request that is taken: a step more, and the checks and subproblems that it leaves.
pub(crate) fn taken(steps: u32, checks: u64, subproblems: usize) -> State
    requires { steps + 1 < 2 ^ 32 }
    ensures { result ≡ counted (steps + 1) checks subproblems }
{
    State {
        counts: Counts {
            steps: Steps(steps + 1),
            checks: Checks(checks),
        },
        subproblems,
    }
}

// A request of a top, whose words fit.
#[derive(Clone, Copy)]
struct Asked<'a> {
    top: Subproblem,
    n: usize,
    d: usize,
    tables: &'a [u16],
    request: &'a [u16],
    ghost reads: { readable n d tables.now request.now ≡ true },
    ghost whole: { length request.now ≡ n + 3 },
}

impl<'a> Asked<'a> {
    ghost use Rattle.search.specs.Loops.Asked.{asked, RoomFrom, TellsEmpty};

    // How many pieces are not empty.
    fn piece_count(&self) -> usize
        ensures { result ≡ length (asked self.now) }
    {
        let candidates = split::candidates(self.n, self.request);
        let mut count = 0;
        for k in 0..candidates {
            let piece = split::piece(self.top, self.n, self.d, self.tables, self.request, k);
            if !piece.is_empty(self.n) {
                count += 1;
            }
        }
        count
    }

    // Whether the pieces exceed the free slots. They are counted only where the candidates of the kind do.
    fn exceed(&self, free: usize) -> bool
        ensures { result ≡ ltb free (length (asked self.now)) }
    {
        free < split::candidates(self.n, self.request) && free < self.piece_count()
    }

    // Whether variable k - 1 keeps no value in its own further piece, the k-th of kind 3 or 5: such a piece is empty and need not be made.
    fn keeps_none(&self, k: usize) -> bool
        requires { k < candidates self.now.n self.now.request.now }
        ensures { TellsEmpty self.now k result }
    {
        if k == 0 {
            return false;
        }
        let j = k - 1;
        let top = self.top;
        let request = self.request;
        let domain = top.domain(j);
        match Kind::try_from(request[0]) {
            Ok(Kind::Idc) => {
                let beside = tables::allowed(
                    self.n,
                    self.d,
                    self.tables,
                    request[1] as usize,
                    j,
                    request[2] as usize,
                );
                at_once::outside(domain, beside) == 0
            }
            Ok(Kind::Extraction) => at_once::outside(domain, request[3 + j]) == 0,
            _ => false,
        }
    }

    // The pieces written from slot `from` on, the last named lowest; the number of slots then used.
    fn place(&self, agenda: &mut [u16], from: usize) -> usize
        requires { RoomFrom self.now from (length agenda.old) }
        ensures { Placed self.now.n (asked self.now) from agenda.old agenda.new result }
    {
        let mut at = from;
        let candidates = split::candidates(self.n, self.request);
        for k in (0..candidates).rev() {
            if !self.keeps_none(k) {
                let piece = split::piece(self.top, self.n, self.d, self.tables, self.request, k);
                if !piece.is_empty(self.n) {
                    agenda::write_slot(self.n, agenda, at, piece);
                    at += 1;
                }
            }
        }
        at
    }
}

// The refusal of a request, in the order 11, 7 to 10, 12.
#[tactic(auto, using(crate::proofs::step::Accepting::refused_at_11))]
fn refusal_of(
    top: Subproblem,
    n: usize,
    d: usize,
    tables: &[u16],
    request: &[u16],
    steps: u32,
    free: usize,
) -> Result<(), Refusal>
    requires { Sized n d tables.now × (length request.now ≡ n + 3) }
    ensures { told result ≡ refusal_for n d tables.now top request.now steps free }
{
    if steps == u32::MAX {
        return Err(Refusal::Steps);
    }
    refusal::refusal(top, n, d, request)?;
    let asked = Asked {
        top,
        n,
        d,
        tables,
        request,
    };
    if asked.exceed(free) {
        return Err(Refusal::Room);
    }
    Ok(())
}

// One request taken by a search that runs and whose top is `top`: the state after it. Refused, the state is what it was.
pub(crate) fn take(
    top: Subproblem,
    n: usize,
    d: usize,
    tables: &[u16],
    agenda: &mut [u16],
    request: &[u16],
    state: State,
) -> Result<State, Refusal>
    requires { Taking n d tables.now agenda.old top state × (length request.now ≡ n + 3) }
    ensures { TakesOne n d tables.now agenda.old agenda.new request.now state (taken_by state result) }
{
    let steps = state.counts.steps.0;
    let slot = state.subproblems - 1;
    let free = agenda.len() / (n + 2) - slot;
    refusal_of(top, n, d, tables, request, steps, free)?;
    let made = checks::checks(top, n, d, tables, request);
    let checks = state.counts.checks.0 + (made as u64);
    agenda::clear_slot(n, agenda, slot);
    let asked = Asked {
        top,
        n,
        d,
        tables,
        request,
    };
    let subproblems = asked.place(agenda, slot);
    Ok(taken(steps, checks, subproblems))
}
