// Document 01's cases that are run and not proved, each refusal from 1 to 15, RFC 1071's example, and files made by hand: a line for each,
// held to the file stdout.
#![tactic(auto)]

use files::saved::Header;
use problem::refusal::Refusal;
use search::state::{Checks, Counts, Ran, State, Steps};
use std::io;
use std::io::Print;

// The ring of the rules: three values, and variables next to each other, 3 next to 0, must differ.
const RING: [u16; 48] = [
    0, 0, 0, 6, 5, 3, 7, 7, 7, 6, 5, 3, 6, 5, 3, 0, 0, 0, 6, 5, 3, 7, 7, 7, 7, 7, 7, 6, 5, 3, 0, 0,
    0, 6, 5, 3, 6, 5, 3, 7, 7, 7, 6, 5, 3, 0, 0, 0,
];

const SEVENS: [u16; 4] = [7, 7, 7, 7];

// Two variables, d 2, unequal; the same with a pair that is allowed one way only; and with a bit at d.
const UNEQUAL: [u16; 8] = [0, 0, 2, 1, 2, 1, 0, 0];

const ONE_WAY: [u16; 8] = [0, 0, 3, 1, 2, 1, 0, 0];

const OVER: [u16; 8] = [0, 0, 6, 1, 2, 1, 0, 0];

const THREES: [u16; 2] = [3, 3];

// The words of a block that says two subproblems, but for its check.
const TWO: [u16; 23] = [
    1, 1, 2, 2, 0, 1, 0, 0, 0, 0, 2, 1, 3, 2, 1, 1, 2, 0, 0, 1, 1, 0, 0,
];

fn counted(steps: u32, checks: u64, subproblems: usize) -> State {
    State {
        counts: Counts {
            steps: Steps(steps),
            checks: Checks(checks),
        },
        subproblems,
    }
}

// The number of a refusal, 0 for none.
fn told(refusal: Option<Refusal>) -> u32 {
    match refusal {
        None => 0,
        Some(refusal) => u32::from(refusal),
    }
}

fn state_line<P: Print>(out: &P, s: State) -> io::Result<()> {
    let steps = s.counts.steps.0;
    let checks = s.counts.checks.0;
    let subproblems = s.subproblems;
    println!(out; " steps {steps} checks {checks} subproblems {subproblems}")
}

// Refused, zeros.
fn opened_line<P: Print>(out: &P, text: &str, r: Result<State, Refusal>) -> io::Result<()> {
    let refusal = told(r.err());
    print!(out; "{text}: refusal {refusal}")?;
    state_line(out, r.unwrap_or(counted(0, 0, 0)))
}

fn ran_line<P: Print>(out: &P, text: &str, r: Ran) -> io::Result<()> {
    let verdict = u32::from(r.verdict);
    let refusal = told(r.refusal);
    let taken = r.taken;
    print!(out; "{text}: verdict {verdict} refusal {refusal} taken {taken}")?;
    state_line(out, r.state)
}

// Opens into an agenda of so many words, at most 36.
fn opens<P: Print>(
    out: &P,
    text: &str,
    n: usize,
    d: usize,
    domains: &[u16],
    tables: &[u16],
    words: usize,
) -> io::Result<()> {
    let mut agenda = [0u16; 36];
    if words <= 36 {
        opened_line(
            out,
            text,
            search::open(n, d, domains, tables, &mut agenda[..words]),
        )?;
    }
    Ok(())
}

// The largest problem, and one past it each way.
fn sizes<P: Print>(out: &P) -> io::Result<()> {
    let domains = [65535u16; 33];
    let tables = [65535u16; 17424];
    opens(
        out,
        "n 32, d 16",
        32,
        16,
        &domains[..32],
        &tables[..16384],
        34,
    )?;
    opens(out, "n 33, d 16", 33, 16, &domains, &tables, 35)?;
    opens(
        out,
        "n 32, d 17",
        32,
        17,
        &domains[..32],
        &tables[..17408],
        34,
    )?;
    opens(out, "n 0", 0, 16, &domains[..0], &tables[..0], 2)?;
    opens(out, "d 0", 1, 0, &domains[..1], &tables[..0], 3)
}

// Requests on the ring, opened in an agenda.
fn ring_run<P: Print>(out: &P, text: &str, agenda: &mut [u16], requests: &[u16]) -> io::Result<()> {
    let state = search::open(4, 3, &SEVENS, &RING, agenda).unwrap_or(counted(0, 0, 0));
    ran_line(
        out,
        text,
        search::run(4, 3, &SEVENS, &RING, agenda, requests, state),
    )
}

// The chooser on it.
fn ring_choice<P: Print>(out: &P, text: &str, agenda: &mut [u16]) -> io::Result<()> {
    let state = search::open(4, 3, &SEVENS, &RING, agenda).unwrap_or(counted(0, 0, 0));
    ran_line(
        out,
        text,
        search::choose(4, 3, &SEVENS, &RING, agenda, 1000, state),
    )
}

// The ring in a single slot, in which kind 2 finds no room, and in two.
fn ring<P: Print>(out: &P) -> io::Result<()> {
    let mut one = [0u16; 6];
    ring_run(
        out,
        "ring, one slot, kind 2",
        &mut one,
        &[2, 0, 0, 0, 0, 0, 0],
    )?;
    ring_choice(out, "ring, one slot, chooser", &mut one)?;
    let mut two = [0u16; 12];
    ring_run(
        out,
        "ring, two slots, kind 2",
        &mut two,
        &[2, 0, 0, 0, 0, 0, 0],
    )?;
    let mut many = [0u16; 3072];
    ring_choice(out, "ring, chooser", &mut many)?;
    looked_at(out, &mut many)
}

// Kind 1 on 1 with 0 and 2 instantiated to 0: it looks at 0 alone where that forbids, at both where neither does.
fn looked_at<P: Print>(out: &P, agenda: &mut [u16]) -> io::Result<()> {
    ring_run(
        out,
        "ring, kind 1, the first of two forbids",
        agenda,
        &[
            1, 0, 0, 0, 0, 0, 0, 1, 2, 0, 0, 0, 0, 0, 1, 1, 0, 0, 0, 0, 0,
        ],
    )?;
    ring_run(
        out,
        "ring, kind 1, neither of two forbids",
        agenda,
        &[
            1, 0, 0, 0, 0, 0, 0, 1, 2, 0, 0, 0, 0, 0, 1, 1, 1, 0, 0, 0, 0,
        ],
    )
}

// Refusals of opening.
fn openings<P: Print>(out: &P) -> io::Result<()> {
    opens(out, "opens", 2, 2, &THREES, &UNEQUAL, 8)?;
    opens(out, "domains too short", 2, 2, &THREES[..1], &UNEQUAL, 8)?;
    opens(out, "tables too short", 2, 2, &THREES, &UNEQUAL[..7], 8)?;
    opens(out, "agenda not whole slots", 2, 2, &THREES, &UNEQUAL, 7)?;
    opens(out, "no agenda", 2, 2, &THREES, &UNEQUAL, 0)?;
    opens(out, "a domain over d", 2, 2, &SEVENS[..2], &UNEQUAL, 8)?;
    opens(out, "a mask over d", 2, 2, &THREES, &OVER, 8)?;
    opens(out, "allowed one way only", 2, 2, &THREES, &ONE_WAY, 8)
}

fn one_run<P: Print>(out: &P, text: &str, state: State, request: &[u16]) -> io::Result<()> {
    let mut agenda = [0u16; 8];
    let _ = search::open(2, 2, &THREES, &UNEQUAL, &mut agenda);
    ran_line(
        out,
        text,
        search::run(2, 2, &THREES, &UNEQUAL, &mut agenda, request, state),
    )
}

// What the first checks of a run meet.
fn first_checks<P: Print>(out: &P) -> io::Result<()> {
    one_run(out, "an empty list", counted(0, 0, 1), &[])?;
    one_run(
        out,
        "request list not whole",
        counted(0, 0, 1),
        &[1, 0, 0, 0],
    )?;
    one_run(out, "more subproblems than slots", counted(0, 0, 3), &[])?;
    one_run(out, "a nonzero unused slot", counted(0, 0, 0), &[])?;
    one_run(out, "an empty subproblem", counted(0, 0, 2), &[])?;
    one_run(out, "too many checks", counted(1, 497, 1), &[])
}

// A run of a list from opening.
fn opened_run<P: Print>(out: &P, text: &str, requests: &[u16]) -> io::Result<()> {
    one_run(out, text, counted(0, 0, 1), requests)
}

// Requests refused by their kind, V or v.
fn kinds<P: Print>(out: &P) -> io::Result<()> {
    opened_run(out, "kind 0", &[0, 0, 0, 0, 0])?;
    opened_run(out, "kind 6", &[6, 0, 0, 0, 0])?;
    opened_run(out, "V is n", &[1, 2, 0, 0, 0])?;
    opened_run(out, "V instantiated", &[1, 0, 0, 0, 0, 1, 0, 0, 0, 0])?;
    opened_run(out, "v is d", &[3, 0, 2, 0, 0])?;
    opened_run(out, "v not in the domain", &[4, 0, 0, 0, 0, 1, 0, 1, 0, 0])?;
    opened_run(out, "one value halved", &[4, 0, 0, 0, 0, 4, 0, 0, 0, 0])
}

// By their targets, by the count of steps or for want of room; and a run that solves.
fn runs<P: Print>(out: &P) -> io::Result<()> {
    opened_run(out, "a target empty", &[5, 0, 0, 1, 0])?;
    opened_run(out, "a target over", &[5, 0, 0, 1, 4])?;
    opened_run(out, "targets the domains", &[5, 0, 0, 3, 3])?;
    one_run(
        out,
        "steps at their last",
        counted(4294967295, 0, 1),
        &[1, 0, 0, 0, 0],
    )?;
    opened_run(out, "no room", &[5, 0, 0, 1, 1])?;
    opened_run(
        out,
        "solved",
        &[2, 0, 0, 0, 0, 1, 1, 1, 0, 0, 1, 1, 1, 0, 0],
    )
}

fn one_choice<P: Print>(out: &P, text: &str, limit: usize, state: State) -> io::Result<()> {
    let mut agenda = [0u16; 8];
    let _ = search::open(2, 2, &THREES, &UNEQUAL, &mut agenda);
    ran_line(
        out,
        text,
        search::choose(2, 2, &THREES, &UNEQUAL, &mut agenda, limit, state),
    )
}

// What the chooser meets.
fn choices<P: Print>(out: &P) -> io::Result<()> {
    one_choice(out, "chooser", 1000, counted(0, 0, 1))?;
    one_choice(out, "chooser, limit 1", 1, counted(0, 0, 1))?;
    one_choice(out, "chooser, too many checks", 1000, counted(0, 1, 1))?;
    one_choice(
        out,
        "chooser, steps at their last",
        1000,
        counted(4294967295, 0, 1),
    )
}

// The words of a block by hand, its check last, in bytes.
fn by_hand(words: &[u16], check: u16) -> [u8; 512] {
    let mut file = [0u8; 512];
    for k in 0..words.len().min(255) {
        file[2 * k..2 * k + 2].copy_from_slice(&words[k].to_be_bytes());
    }
    file[510..].copy_from_slice(&check.to_be_bytes());
    file
}

// Refused, zeros.
fn loaded_line<P: Print>(out: &P, text: &str, r: Result<Header, Refusal>) -> io::Result<()> {
    let refusal = told(r.err());
    let header = r.unwrap_or(Header {
        n: 0,
        d: 0,
        state: counted(0, 0, 0),
    });
    let n = header.n;
    let d = header.d;
    print!(out; "{text}: refusal {refusal} n {n} d {d}")?;
    state_line(out, header.state)
}

fn saved_line<P: Print>(out: &P, text: &str, r: Result<usize, Refusal>) -> io::Result<()> {
    let refusal = told(r.err());
    let blocks = r.unwrap_or(0);
    println!(out; "{text}: refusal {refusal} blocks {blocks}")
}

// Loads a file into memory for two variables, d 2 and two slots.
fn loads<P: Print>(out: &P, text: &str, file: &[u8]) -> io::Result<()> {
    let mut domains = [0u16; 2];
    let mut tables = [0u16; 8];
    let mut agenda = [0u16; 8];
    loaded_line(
        out,
        text,
        files::load(file, &mut domains, &mut tables, &mut agenda),
    )
}

// The same into memory for one slot, and with the domains one word short.
fn loads_short<P: Print>(out: &P, file: &[u8]) -> io::Result<()> {
    let mut domains = [0u16; 2];
    let mut tables = [0u16; 8];
    let mut one = [0u16; 4];
    loaded_line(
        out,
        "two subproblems, one slot",
        files::load(file, &mut domains, &mut tables, &mut one),
    )?;
    let mut short = [0u16; 1];
    let mut agenda = [0u16; 8];
    loaded_line(
        out,
        "domains one word short",
        files::load(file, &mut short, &mut tables, &mut agenda),
    )
}

// RFC 1071's own example: 0001 f203 f4f5 f6f7 has the check 220d, 8717.
fn checks_of_words<P: Print>(out: &P) -> io::Result<()> {
    let example = [0u8, 1, 242, 3, 244, 245, 246, 247];
    let check = blocks::checksum::check_of(&example);
    println!(out; "RFC 1071's example: check {check}")
}

// Two variables, d 2, domains {0} and {0, 1}, unequal, as opening leaves it, with word `k` of its block changed and the check that it has then.
fn changed<P: Print>(out: &P, text: &str, k: usize, word: u16, check: u16) -> io::Result<()> {
    let mut words = [
        1u16, 1, 2, 2, 0, 0, 0, 0, 0, 0, 1, 1, 3, 2, 1, 1, 3, 0, 0, 0,
    ];
    if k < 20 {
        words[k] = word;
        loads(out, text, &by_hand(&words, check))?;
    }
    Ok(())
}

fn by_hands<P: Print>(out: &P) -> io::Result<()> {
    changed(out, "by hand", 0, 1, 65517)?;
    changed(out, "a wrong check", 0, 1, 65516)?;
    changed(out, "a wrong number", 0, 2, 65516)?;
    changed(out, "a wrong count", 1, 2, 65516)?;
    changed(out, "n 0", 2, 0, 65519)?;
    changed(out, "d 17", 3, 17, 65502)?;
    changed(out, "more checks than 496 a step", 9, 1, 65516)?;
    changed(out, "a domain over d", 11, 4, 65514)?;
    changed(out, "a mask over d", 13, 4, 65515)?;
    changed(out, "an empty domain on the agenda", 15, 0, 65518)?;
    changed(out, "a mark past n", 18, 4, 65513)?;
    changed(out, "a word after the end", 19, 1, 65516)?;
    loads(out, "no file", &[])?;
    loads(out, "not whole blocks", &[0; 511])?;
    loads_short(out, &by_hand(&TWO, 65514))
}

fn saves<P: Print>(out: &P) -> io::Result<()> {
    let mut agenda = [0u16; 8];
    let state = search::open(2, 2, &THREES, &UNEQUAL, &mut agenda).unwrap_or(counted(0, 0, 0));
    let mut file = [0u8; 600];
    saved_line(
        out,
        "saved",
        files::save(2, 2, &THREES, &UNEQUAL, &agenda, state, &mut file),
    )?;
    let mut short = [0u8; 511];
    saved_line(
        out,
        "saved short",
        files::save(2, 2, &THREES, &UNEQUAL, &agenda, state, &mut short),
    )?;
    saved_line(
        out,
        "saved with too many checks",
        files::save(
            2,
            2,
            &THREES,
            &UNEQUAL,
            &agenda,
            counted(0, 1, 1),
            &mut short,
        ),
    )
}

fn main(rt: HostRuntime) -> io::Result<()> {
    sizes(&rt)?;
    ring(&rt)?;
    openings(&rt)?;
    first_checks(&rt)?;
    kinds(&rt)?;
    runs(&rt)?;
    choices(&rt)?;
    checks_of_words(&rt)?;
    by_hands(&rt)?;
    saves(&rt)
}
