// The front of an agenda: how much of it a run needs, and how much is written back.
ghost use Rattle.std.specs.Prelude.{◌≡◌, ◌+◌, ◌-◌, ◌*◌, ◌≤◌, ◌<◌, length};
ghost use Rattle.console.specs.Loops.Fronts.{Front, WritesBack, Reach, FrontOf};

// How many words of slots were used before or after a call; all if there are no more.
fn front(n: usize, before: usize, after: usize, words: usize) -> usize
    requires { (n ≤ 32) × ((before < 4294967296) × (after < 4294967296)) }
    ensures { Front n before after words result }
{
    let used = before.max(after) * (n + 2);
    used.min(words)
}

// How many words stand in the slots below those that so many requests can have replaced; `most` if that is fewer.
fn lower(n: usize, subproblems: usize, taken: usize, most: usize) -> usize
    requires { (n ≤ 32) × (subproblems < 4294967296) }
    ensures { (result ≤ most) × (result ≤ (subproblems - taken) * (n + 2)) }
{
    let words = subproblems.saturating_sub(taken) * (n + 2);
    words.min(most)
}

// Writes back the words of an agenda that a run can have changed: of the slots used before or after it those that its requests can have replaced.
pub(crate) fn write_back(
    n: usize,
    before: usize,
    taken: usize,
    after: usize,
    words: &[u16],
    agenda: &mut [u8],
)
    requires { (n ≤ 32) × ((before < 4294967296) × ((after < 4294967296) × (length agenda.old ≡ 2 * length words.now))) }
    ensures { WritesBack n before taken after words.now agenda.old agenda.new }
{
    let to = front(n, before, after, words.len());
    let from = lower(n, before, taken, to);
    word_bytes::bytes_of(&words[from..to], &mut agenda[2 * from..2 * to]);
}

// How many bytes of an agenda a run of a few requests can use: those of the slots used, of n + 1 more for each request, and of one; all if there are no
// more, for more than 1,120 bytes of requests (16 of 32 variables), and of an agenda that is not up to 512 whole slots.
fn reach(n: usize, subproblems: usize, requests: usize, agenda: usize) -> usize
    requires { (n ≤ 32) × (subproblems < 4294967296) }
    ensures { Reach n subproblems requests agenda result }
{
    let slot = 2 * (n + 2);
    if agenda % slot != 0 || 512 * slot < agenda || 1120 < requests {
        return agenda;
    }
    let slots = subproblems + (n + 1) * (requests / (2 * (n + 3))) + 1;
    let reached = slots * slot;
    reached.min(agenda)
}

// The same if all bytes after them are 0, else all: as much of an agenda as tells how a run ends.
pub(crate) fn front_of(n: usize, subproblems: usize, requests: usize, agenda: &[u8]) -> usize
    requires { (n ≤ 32) × (subproblems < 4294967296) }
    ensures { FrontOf n subproblems requests agenda.now result }
{
    let front = reach(n, subproblems, requests, agenda.len());
    if word_bytes::zeros(&agenda[front..]) {
        front
    } else {
        agenda.len()
    }
}
