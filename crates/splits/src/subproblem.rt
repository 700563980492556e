// A subproblem: a domain for each variable, and the set of those that a split instantiated.
ghost use Rattle.std.specs.Prelude.{◌≡◌, ◌<◌, ◌≤◌};
ghost use Rattle.splits.specs.Splits.{at_targets};
ghost use Rattle.splits.specs.Calls.{Domain, IsInstantiated, AllInstantiated, IsEmpty, Instantiate, Without, Cut, CutEach, Precluded};
ghost use Rattle.splits.specs.Loops.Kinds.{cut_before};

use crate::words;
use problem::mask;

#[derive(Clone, Copy)]
pub struct Subproblem {
    pub domains: [u16; 32],
    pub marked: u32,
}

impl Subproblem {
    // The domain of a variable; empty past the last.
    pub fn domain(self, variable: usize) -> u16
        ensures { Domain self variable result }
    {
        self.domains.get(variable).copied().unwrap_or(0)
    }

    // Whether a split instantiated the variable.
    pub fn is_instantiated(self, variable: usize) -> bool
        ensures { IsInstantiated self variable result }
    {
        variable < 32 && (self.marked >> variable) % 2 == 1
    }

    // Whether each of the first `n` variables is instantiated: the lowest n marks are all set.
    pub fn all_instantiated(self, n: usize) -> bool
        ensures { AllInstantiated self n result }
    {
        if 32 < n {
            return false;
        }
        let bound: u64 = 1 << n;
        u64::from(self.marked) % bound == bound - 1
    }

    // Whether one of the first `n` domains is empty.
    pub fn is_empty(self, n: usize) -> bool
        ensures { IsEmpty self n result }
    {
        32 < n || self.domains[..n].contains(&0)
    }

    // The variable instantiated to the value.
    pub fn instantiate(mut self, variable: usize, value: usize) -> Subproblem
        ensures { Instantiate self variable value result }
    {
        if variable < 32 && value < 16 {
            self.domains[variable] = mask::only(value);
            self.marked |= 1 << variable;
        }
        self
    }

    // The variable's domain without the values of a mask.
    pub fn without(mut self, variable: usize, mask: u16) -> Subproblem
        ensures { Without self variable mask result }
    {
        if variable < 32 {
            self.domains[variable] &= !mask;
        }
        self
    }

    // The variable's domain cut to the values of a mask.
    pub fn cut(mut self, variable: usize, mask: u16) -> Subproblem
        ensures { Cut self variable mask result }
    {
        if variable < 32 {
            self.domains[variable] &= mask;
        }
        self
    }

    // Every domain cut to the values of its own mask.
    pub fn cut_each(mut self, masks: [u16; 32]) -> Subproblem
        ensures { CutEach self masks result }
    {
        for i in 0..32 {
            self.domains[i] &= masks[i];
        }
        self
    }

    // The precluded piece, by the row beside a value of the variable: every other domain cut to its own mask of the row, the variable's is the row's, which is
    // the value alone, and it is instantiated.
    pub fn precluded(self, variable: usize, row: [u16; 32]) -> Subproblem
        ensures { Precluded self variable row result }
    {
        if 32 <= variable {
            return self;
        }
        let mut next = self.cut_each(row);
        next.domains[variable] = row[variable];
        next.marked |= 1 << variable;
        next
    }

    // The variables before `j`, except `variable`, cut to their own masks of a row.
    pub(crate) fn cut_before(mut self, variable: usize, row: [u16; 32], j: usize) -> Subproblem
        requires { j ≤ 32 }
        ensures { result ≡ cut_before self variable row j }
    {
        for i in 0..j {
            if i != variable {
                self.domains[i] &= row[i];
            }
        }
        self
    }

    // The variables before `j` at their targets.
    pub(crate) fn at_targets(mut self, request: &[u16], j: usize) -> Subproblem
        requires { j ≤ 32 }
        ensures { result ≡ at_targets self request.now j }
    {
        for i in 0..j {
            self.domains[i] = words::target(request, i);
        }
        self
    }
}
