// From the bytes of a file to the text that the program prints.
#![tactic(auto)]

pub mod text;

ghost use Rattle.std.specs.Prelude.{◌≡◌, ◌+◌, ◌-◌, ◌*◌, ◌≤◌, length, eqb};
ghost use Rattle.problem.specs.Masks.{lowest};
ghost use Rattle.splits.specs.Subproblems.{domain};
ghost use Rattle.search.specs.Agenda.{subproblem_of, slot_at};
ghost use Rattle.search.specs.Outcomes.{ran as ran_of};
ghost use Rattle.searches.specs.Verdicts.{number_of};
ghost use Rattle.answer.specs.Text.{plan_of, text_from};
ghost use Rattle.answer.specs.Calls.{Answers};
ghost use Rattle.answer.specs.Loops.Writing.{Holds, Adds, Shows};
ghost use Rattle.answer.specs.Loops.Lending.{Lends};

use crate::text::Text;
use search::state::Ran;
use searches::verdict::Verdict;

// A number that is at most so much, else 0.
fn at_most(number: usize, most: usize) -> usize
    ensures { (number ≤ most → result ≡ number) × (result ≤ most) }
{
    if number <= most { number } else { 0 }
}

// So many words, all zero.
fn zeros<const N: usize>() -> [u16; N]
    ensures { N ≡ length result }
{
    [0; N]
}

// The program's whole text for a file.
pub fn answer_to(file: &[u8]) -> Text
    ensures { Answers file.now result }
{
    let header = files::said::header_of(file);
    let n = at_most(header.n, 32);
    let d = at_most(header.d, 16);
    let masks = n * n * d;
    let room = 512 * (n + 2);
    // As many as the largest file has.
    let mut domains = zeros::<32>();
    let mut tables = zeros::<16384>();
    let mut agenda = zeros::<17408>();
    answer_in(
        file,
        &mut domains[..n],
        &mut tables[..masks],
        &mut agenda[..room],
    )
}

// The same in lent memory of the lengths that the file asks for.
fn answer_in(file: &[u8], domains: &mut [u16], tables: &mut [u16], agenda: &mut [u16]) -> Text
    requires { Lends file.now (length domains.old) (length tables.old) (length agenda.old) }
    ensures { Answers file.now result }
{
    match files::load(file, domains, tables, agenda) {
        Err(refusal) => text::start().with_refusal(refusal),
        Ok(loaded) => {
            let n = loaded.n;
            let ran = search::choose(n, loaded.d, domains, tables, agenda, 1000000, loaded.state);
            text_of(n, agenda, ran)
        }
    }
}

// The text of a run and the agenda that it leaves.
fn text_of(n: usize, agenda: &[u16], ran: Ran) -> Text
    requires { Shows n agenda.now (ran_of ran) }
    ensures { Holds result (text_from n agenda.now (ran_of ran)) }
{
    let verdict = ran.verdict;
    let steps = ran.state.counts.steps.0;
    let checks = ran.state.counts.checks.0;
    let text = text::start()
        .with_verdict(verdict)
        .with_counts(steps, checks);
    if let Some(refusal) = ran.refusal {
        return text.with_refusal(refusal);
    }
    if is_solved(verdict) {
        return with_top(text, n, agenda, ran.state.subproblems);
    }
    text
}

// Whether a verdict is solved.
fn is_solved(verdict: Verdict) -> bool
    ensures { result ≡ eqb (number_of verdict) 2 }
{
    verdict == Verdict::Solved
}

// The lines of the top of so many subproblems.
fn with_top(text: Text, n: usize, agenda: &[u16], subproblems: usize) -> Text
    requires { (n ≤ 32) × ((1 ≤ subproblems) × (subproblems * (n + 2) ≤ length agenda.now)) }
    ensures { Adds text (plan_of n (λ i. lowest (domain (subproblem_of n (slot_at n agenda.now (subproblems - 1))) i))) result }
{
    let at = (subproblems - 1) * (n + 2);
    let end = at + n;
    text.with_plan(&agenda[at..end])
}
