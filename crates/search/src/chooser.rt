// A step of the house chooser, worked out on all masks at once.
ghost use Rattle.std.specs.Prelude.{◌≡◌, true, false, ◌+◌, ◌-◌, ◌^◌, ◌<◌, ◌≤◌, length, get_or};
ghost use Rattle.problem.specs.Masks.{size};
ghost use Rattle.problem.specs.Problem.{table_of};
ghost use Rattle.problem.specs.Lists.{total};
ghost use Rattle.splits.specs.Subproblems.{domain, all_instantiated};
ghost use Rattle.splits.specs.Splits.{without, precluded_by, pieces};
ghost use Rattle.search.specs.Loops.Slots.{SlotIn};
ghost use Rattle.search.specs.Loops.Kept.{Regular};
ghost use Rattle.search.specs.Loops.Steps.{Replaced, Taking, taken_by};
ghost use Rattle.search.specs.Loops.Lanes.{Sides};
ghost use Rattle.search.specs.Loops.Found.{Found, OfTop, FurtherOf, FurtherPiece, Puts, request_by, left, left_by, several, TakesChosen};

use crate::kept::Kept;
use crate::state::State;
use crate::{agenda, lanes, step};
use problem::mask;
use problem::refusal::Refusal;
use splits::at_once;
use splits::subproblem::Subproblem;

// What the chooser finds of a top subproblem: the variable, how many values it has, what is allowed beside its lowest value, and whether the precluded
// piece is empty.
#[derive(Clone, Copy)]
pub(crate) struct Choice {
    pub(crate) variable: usize,
    pub(crate) values: u16,
    pub(crate) row: [u16; 32],
    pub(crate) lost: bool,
}

// What the chooser finds of the top.
fn look(top: Subproblem, kept: &mut Kept) -> Choice
    requires { let k = kept.old in Regular k.n k.d top × (all_instantiated k.n top ≡ false) }
    ensures { let k = kept.old in Found k.n k.d k.tables top result × (kept.new ≡ k) }
{
    let domains = top.domains;
    let key = lanes::least_key(domains, top.marked | lanes::beyond(kept.n));
    let variable = usize::from(key % 32);
    let value = mask::lowest(top.domain(variable));
    let row = kept.row(variable, value);
    let lost = at_once::loses(domains, row);
    Choice {
        variable,
        values: key / 32,
        row,
        lost,
    }
}

// A top that runs, and the chooser's choice of it. `d` and `tables` are for the contracts alone: the code has the choice's row.
#[derive(Clone, Copy)]
struct Chosen<'a> {
    n: usize,
    d: usize,
    tables: &'a [u16],
    top: Subproblem,
    choice: Choice,
    ghost of_top: { OfTop n d tables.now top choice },
}

impl<'a> Chosen<'a> {
    ghost use Rattle.search.specs.Loops.Chosen.{chosen, RoomFor};

    // Whether more than one piece may be left.
    fn is_several(&self) -> bool
        ensures { result ≡ several self.now.choice }
    {
        !self.choice.lost && self.choice.values != 1
    }

    // The precluded piece.
    fn precluded(&self) -> Subproblem
        ensures { result ≡ precluded_by self.now.top self.now.choice.variable self.now.choice.row }
    {
        let top = self.top;
        let row = self.choice.row;
        top.precluded(self.choice.variable, row)
    }

    // V without its value.
    fn rest(&self) -> Subproblem
        ensures { result ≡ without self.now.top self.now.choice.variable (get_or self.now.choice.row self.now.choice.variable 0) }
    {
        let top = self.top;
        let variable = self.choice.variable;
        let row = self.choice.row;
        top.without(variable, row[variable])
    }

    // Where one piece is left at most: it in the place of the top, which stood in slot `slot`; the number of subproblems then.
    fn settle(&self, agenda: &mut [u16], slot: usize) -> usize
        requires { SlotIn self.now.n slot (length agenda.old) }
        ensures { Replaced self.now.n (left_by self.now.top self.now.choice) slot agenda.old agenda.new result }
    {
        if !self.choice.lost {
            agenda::write_slot(self.n, agenda, slot, self.precluded());
            return slot + 1;
        }
        if self.choice.values == 1 {
            agenda::clear_slot(self.n, agenda, slot);
            return slot;
        }
        agenda::write_slot(self.n, agenda, slot, self.rest());
        slot + 1
    }

    // What kind 3's further pieces are made of.
    fn further(&self) -> Further
        ensures { FurtherOf self.now.top self.now.choice result }
    {
        let rest = self.rest();
        let whole = rest.domains;
        let mut row = self.choice.row;
        let variable = self.choice.variable;
        row[variable] = 65535;
        let out = at_once::outsides(whole, row);
        Further { rest, row, out }
    }

    // Kind 3's pieces, the last named in the place of the top, the others above; the number of subproblems then.
    fn spread(&self, agenda: &mut [u16], further: Further, slot: usize) -> usize
        requires { SlotIn self.now.n slot (length agenda.old) × (RoomFor self.now 3 slot (length agenda.old) × ((several self.now.choice ≡ true) × FurtherOf self.now.top self.now.choice further)) }
        ensures { Replaced self.now.n (chosen self.now 3) slot agenda.old agenda.new result }
    {
        let out = further.out;
        let sides = lanes::sides();
        let mut at = slot;
        for j in (0..self.n).rev() {
            if out[j] != 0 {
                agenda::write_slot(self.n, agenda, at, further_piece(further, &sides, j));
                at += 1;
            }
        }
        agenda::write_slot(self.n, agenda, at, self.precluded());
        at + 1
    }

    // Kind 2's pieces: V without its value in the place of the top, the precluded piece above.
    fn put_two(&self, agenda: &mut [u16], slot: usize) -> usize
        requires { SlotIn self.now.n slot (length agenda.old) × (RoomFor self.now 2 slot (length agenda.old) × (several self.now.choice ≡ true)) }
        ensures { Replaced self.now.n (chosen self.now 2) slot agenda.old agenda.new result }
    {
        agenda::write_slot(self.n, agenda, slot, self.rest());
        agenda::write_slot(self.n, agenda, slot + 1, self.precluded());
        slot + 2
    }

    // The pieces of the rule's request in the place of the top, which stood in slot `slot`: one at most, else kind 3's if they have room, else
    // kind 2's if these have, else none, and 12. The number of subproblems then.
    fn put(&self, agenda: &mut [u16], slot: usize) -> Result<usize, Refusal>
        requires { SlotIn self.now.n slot (length agenda.old) }
        ensures { Puts self.now.n self.now.d self.now.tables.now self.now.top slot agenda.old agenda.new (left result) }
    {
        if !self.is_several() {
            return Ok(self.settle(agenda, slot));
        }
        let free = agenda.len() / (self.n + 2) - slot;
        let further = self.further();
        let out = further.out;
        if (at_once::filled(out) as usize) < free {
            return Ok(self.spread(agenda, further, slot));
        }
        if free < 2 {
            return Err(Refusal::Room);
        }
        Ok(self.put_two(agenda, slot))
    }

    // The checks so far with those of the step: the values of all variables but V.
    fn with_checks(&self, before: u64) -> u64
        requires { before < 2 ^ 63 }
        ensures { result ≡ before + (total 32 (λ j. size (domain self.now.top j)) - self.now.choice.values) }
    {
        let domains = self.top.domains;
        before + u64::from(at_once::values(domains) - self.choice.values)
    }
}

// What kind 3's further pieces are made of: V without its value, the row with all values for V, and what each domain has outside its mask of it.
#[derive(Clone, Copy)]
pub(crate) struct Further {
    pub(crate) rest: Subproblem,
    pub(crate) row: [u16; 32],
    pub(crate) out: [u16; 32],
}

// The further piece of variable `j`.
fn further_piece(further: Further, sides: &[u16], j: usize) -> Subproblem
    requires { (j < 32) × Sides 64 sides.now }
    ensures { FurtherPiece further j result }
{
    let row = further.row;
    further
        .rest
        .cut_each(lanes::before(row, sides, j))
        .without(j, row[j])
}

// One step of the chooser by a search that runs and whose top is `top`: the state after it.
pub(crate) fn take_chosen(
    top: Subproblem,
    agenda: &mut [u16],
    kept: &mut Kept,
    state: State,
) -> Result<State, Refusal>
    requires { let k = kept.old in Taking k.n k.d k.tables agenda.old top state }
    ensures { let k = kept.old in TakesChosen k.n k.d k.tables top agenda.old agenda.new state (taken_by state result) × (kept.new ≡ k) }
{
    let steps = state.counts.steps.0;
    if steps == u32::MAX {
        return Err(Refusal::Steps);
    }
    let choice = look(top, kept);
    let chosen = Chosen {
        n: kept.n,
        d: kept.d,
        tables: kept.tables,
        top,
        choice,
    };
    let checks = chosen.with_checks(state.counts.checks.0);
    let subproblems = chosen.put(agenda, state.subproblems - 1)?;
    Ok(step::taken(steps, checks, subproblems))
}
