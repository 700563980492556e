// The rules for the subproblems in slots, the first check that 6 is about, on the words as they lie there.
ghost use Rattle.std.specs.Prelude.{◌≡◌, ◌+◌, ◌*◌, ◌≤◌, ◌<◌, length};
ghost use Rattle.problem.specs.Problem.{table_of, problem_of};
ghost use Rattle.problem.specs.Lists.{every, joined};
ghost use Rattle.search.specs.Agenda.{subproblem_of, stack_of};
ghost use Rattle.search.specs.Tests.FirstChecks.{obeys, all_obey};
ghost use Rattle.search.specs.Loops.FirstTests.{Mirrored, SlotFits, Next, part_wrong, wrong_in, Held, missing_in, mark_obeys, TellsSame, TellsBelow, MarksKnown};
ghost use Rattle.search.specs.Loops.Slots.{SlotIn};

use crate::agenda;
use crate::kept::Kept;
use problem::mask;
use splits::at_once;

// What is wrong with a domain beside the problem's: that it is empty, or values that the problem's has not; 0 for nothing.
fn part_wrong(whole: u16, domain: u16) -> u16
    ensures { result ≡ part_wrong whole domain }
{
    if domain == 0 {
        return 1;
    }
    domain & !whole
}

// What is wrong with every domain, together.
fn wrong_in(domains: &[u16], slot: &[u16]) -> u16
    requires { length domains.now ≤ length slot.now }
    ensures { result ≡ joined (length domains.now) (wrong_in domains.now slot.now) }
{
    let mut wrong: u16 = 0;
    for i in 0..domains.len() {
        wrong |= part_wrong(domains[i], slot[i]);
    }
    wrong
}

// The same; of 32 domains by a loop of as many turns, so that the machine takes eight at once.
fn wrong_with(n: usize, domains: &[u16], slot: &[u16]) -> u16
    requires { (length domains.now ≡ n) × (n ≤ length slot.now) }
    ensures { result ≡ joined (length domains.now) (wrong_in domains.now slot.now) }
{
    if n == 32 {
        return wrong_in(&domains[0..n], &slot[0..n]);
    }
    wrong_in(domains, slot)
}

// The first variable of a set from this one on; past all variables if there is none.
fn next_in(set: u32, from: usize) -> usize
    requires { from ≤ 32 }
    ensures { Next set from result }
{
    from + ((set as u64) >> from).trailing_zeros() as usize
}

// The domains of a slot's instantiated variables, nothing for the others.
fn held_of(slot: &[u16], marked: u32, n: usize) -> [u16; 32]
    requires { (n ≤ 32) × ((length slot.now ≡ n + 2) × (marked ≡ (subproblem_of n slot.now).marked)) }
    ensures { Held n (subproblem_of n slot.now) result }
{
    let mut held = [0u16; 32];
    let mut i = next_in(marked, 0);
    // No `for`: this goes from one of the set to the next, where a range would test each of n variables.
    while i < n {
        held[i] = slot[i];
        i = next_in(marked, i + 1);
    }
    held
}

// What of them is outside a row, together; 0 for nothing.
fn missing(held: [u16; 32], row: [u16; 32]) -> u16
    ensures { result ≡ joined 32 (missing_in held row) }
{
    let mut wrong: u16 = 0;
    for j in 0..32 {
        wrong |= at_once::outside(held[j], row[j]);
    }
    wrong
}

// Whether every instantiated variable has one value, and every other instantiated one what is allowed beside it.
fn marks_obey(slot: &[u16], marked: u32, kept: &mut Kept) -> bool
    requires { let k = kept.old in SlotFits k.n k.d k.tables slot.now marked }
    ensures { let k = kept.old in (result ≡ every k.n (mark_obeys k.n (table_of k.n k.d k.tables) (subproblem_of k.n slot.now))) × (kept.new ≡ k) }
{
    let n = kept.n;
    let held = held_of(slot, marked, n);
    let mut i = next_in(marked, 0);
    // No `for`, as in `held_of`.
    while i < n {
        let row = kept.row(i, mask::lowest(slot[i]));
        if missing(held, row) != 0 {
            return false;
        }
        i = next_in(marked, i + 1);
    }
    true
}

// Whether two slots have the same variables instantiated, to the same values: then these agree in both or in neither.
fn same_marks(slot: &[u16], other: &[u16], n: usize) -> bool
    requires { (n ≤ 32) × ((length slot.now ≡ n + 2) × (length other.now ≡ n + 2)) }
    ensures { TellsSame n slot.now other.now result }
{
    let marked = agenda::marked_at(slot, n);
    if marked != agenda::marked_at(other, n) {
        return false;
    }
    let mut i = next_in(marked, 0);
    // No `for`, as in `held_of`.
    while i < n {
        if slot[i] != other[i] {
            return false;
        }
        i = next_in(marked, i + 1);
    }
    true
}

// Whether slot `k` has them as the slot below it, as the pieces of one split do.
fn as_below(n: usize, agenda: &[u16], k: usize) -> bool
    requires { SlotIn n k (length agenda.now) }
    ensures { TellsBelow n agenda.now k result }
{
    k != 0
        && same_marks(
            agenda::slot(n, agenda, k),
            agenda::slot(n, agenda, k - 1),
            n,
        )
}

// Whether the subproblem in the words of a slot obeys the rules; `known`: its instantiated variables do.
fn obeys(slot: &[u16], domains: &[u16], kept: &mut Kept, known: bool) -> bool
    requires { let k = kept.old in Mirrored k.n k.d domains.now k.tables × ((length slot.now ≡ k.n + 2) × MarksKnown k.n k.d k.tables slot.now known) }
    ensures { let k = kept.old in (result ≡ obeys (problem_of k.n k.d domains.now k.tables) (subproblem_of k.n slot.now)) × (kept.new ≡ k) }
{
    let n = kept.n;
    let marked = agenda::marked_at(slot, n);
    if (1 << n) <= (marked as u64) || wrong_with(n, domains, slot) != 0 {
        return false;
    }
    known || marks_obey(slot, marked, kept)
}

// Whether the subproblems in the first `count` slots do. Values that are those of the slot below are not looked at again.
pub(crate) fn all_obey(
    n: usize,
    d: usize,
    domains: &[u16],
    tables: &[u16],
    agenda: &[u16],
    count: usize,
) -> bool
    requires { Mirrored n d domains.now tables.now × (count * (n + 2) ≤ length agenda.now) }
    ensures { result ≡ all_obey (problem_of n d domains.now tables.now) (stack_of n agenda.now count) }
{
    let none = [0u16; 32];
    let mut kept = Kept {
        n,
        d,
        tables,
        each: 1,
        rows: &mut [none; 32],
    };
    for k in 0..count {
        let known = as_below(n, agenda, k);
        let slot = agenda::slot(n, agenda, k);
        if !obeys(slot, domains, &mut kept, known) {
            return false;
        }
    }
    true
}
