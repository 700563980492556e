// The lent agenda: slots of n + 2 words, slot 0 the bottom. A step reads, writes and clears slots here alone; the first checks read them as words.
ghost use Rattle.std.specs.Prelude.{◌≡◌, ◌+◌, ◌*◌, ◌≤◌, length, get_or, replicate};
ghost use Rattle.search.specs.Agenda.{holding, slot_words, subproblem_of, slot_at};
ghost use Rattle.problem.specs.Lists.{splice};
ghost use Rattle.search.specs.Loops.Slots.{SlotIn};
ghost use Rattle.search.specs.Loops.Lanes.{Below, KeptTo};

use splits::subproblem::Subproblem;

// The subproblem of the first `n` words as domains.
pub(crate) fn holding(n: usize, words: &[u16], marked: u32) -> Subproblem
    requires { (n ≤ 32) × (n ≤ length words.now) }
    ensures { result ≡ holding n words.now marked }
{
    let mut domains = [0u16; 32];
    domains[..n].copy_from_slice(&words[..n]);
    Subproblem { domains, marked }
}

// The marked set of two words, high first.
fn marked_of(high: u16, low: u16) -> u32
    ensures { result ≡ high * 65536 + low }
{
    u32::from(high) * 65536 + u32::from(low)
}

// The same of the two words from `at` on.
pub(crate) fn marked_at(words: &[u16], at: usize) -> u32
    requires { at + 2 ≤ length words.now }
    ensures { result ≡ get_or words.now at 0 * 65536 + get_or words.now (at + 1) 0 }
{
    marked_of(words[at], words[at + 1])
}

// The words of slot `k`.
pub(crate) fn slot(n: usize, memory: &[u16], k: usize) -> &[u16]
    requires { SlotIn n k (length memory.now) }
    ensures { (result.now ≡ slot_at n memory.now k) × (length result.now ≡ n + 2) }
{
    let at = k * (n + 2);
    let end = at + (n + 2);
    &memory[at..end]
}

// The subproblem in slot `k`.
pub(crate) fn read_slot(n: usize, memory: &[u16], k: usize) -> Subproblem
    requires { SlotIn n k (length memory.now) }
    ensures { result ≡ subproblem_of n (slot_at n memory.now k) }
{
    let words = slot(n, memory, k);
    holding(n, words, marked_at(words, n))
}

// The first 32 words, each kept by its own lane.
fn kept_words(lanes: [u16; 32], words: &[u16]) -> [u16; 32]
    requires { 32 ≤ length words.now }
    ensures { KeptTo lanes words.now 32 result }
{
    let mut domains = [0u16; 32];
    for i in 0..32 {
        domains[i] = words[i] & lanes[i];
    }
    domains
}

// The subproblem in slot `k`, all 32 masks at once where so many words follow; `lanes` keep those of the n variables.
pub(crate) fn read_lanes(lanes: [u16; 32], n: usize, memory: &[u16], k: usize) -> Subproblem
    requires { SlotIn n k (length memory.now) × Below n lanes }
    ensures { result ≡ subproblem_of n (slot_at n memory.now k) }
{
    let at = k * (n + 2);
    let end = at + 32;
    if memory.len() < end {
        return read_slot(n, memory, k);
    }
    Subproblem {
        domains: kept_words(lanes, &memory[at..end]),
        marked: marked_at(memory, at + n),
    }
}

// The words of a slot.
fn put_each(n: usize, slot: &mut [u16], p: Subproblem)
    requires { (n ≤ 32) × (length slot.old ≡ n + 2) }
    ensures { slot.new ≡ slot_words n p }
{
    let domains = p.domains;
    slot[..n].copy_from_slice(&domains[..n]);
    slot[n] = (p.marked / 65536) as u16;
    slot[n + 1] = (p.marked % 65536) as u16;
}

// The same; of 32 variables by a copy of fixed length, so that the machine takes eight masks at once.
fn put_words(n: usize, slot: &mut [u16], p: Subproblem)
    requires { (n ≤ 32) × (length slot.old ≡ n + 2) }
    ensures { slot.new ≡ slot_words n p }
{
    if n == 32 {
        put_each(32, slot, p);
    } else {
        put_each(n, slot, p);
    }
}

// Slot `k` holds the subproblem.
pub(crate) fn write_slot(n: usize, memory: &mut [u16], k: usize, p: Subproblem)
    requires { SlotIn n k (length memory.old) }
    ensures { memory.new ≡ splice memory.old (k * (n + 2)) (slot_words n p) }
{
    let at = k * (n + 2);
    let end = at + (n + 2);
    put_words(n, &mut memory[at..end], p);
}

// Slot `k` holds zeros.
pub(crate) fn clear_slot(n: usize, memory: &mut [u16], k: usize)
    requires { SlotIn n k (length memory.old) }
    ensures { memory.new ≡ splice memory.old (k * (n + 2)) (replicate (n + 2) 0) }
{
    let none = Subproblem {
        domains: [0u16; 32],
        marked: 0,
    };
    write_slot(n, memory, k, none);
}

// Every word is zero.
pub(crate) fn clear(memory: &mut [u16])
    ensures { memory.new ≡ replicate (length memory.old) 0 }
{
    memory.fill(0);
}
