// The calls on bytes: at the words that the bytes say, or refused where these are none, not whole words or more than the rules allow. Whether there is
// room for the words is asked before the arrays for them are made: then the compiler zeroes only what the words do not fill. Tables are made last, but
// of a run before its agenda: the first checks begin with them, and find them in the cache.
ghost use Rattle.std.specs.Prelude.{◌≡◌, ◌≤◌, ◌<◌, length};
ghost use Rattle.console.specs.Calls.{OpensBytes, RunsBytes, RunsWords, ChoosesBytes, SavesBytes, unloaded, LoadsBytes};
ghost use Rattle.search.specs.Outcomes.{opened, ran};
ghost use Rattle.files.specs.Outcomes.{saved, loaded};
ghost use Rattle.word_bytes.specs.Bytes.{Fits};
ghost use Rattle.console.specs.Loops.Rooms.{Room};
ghost use Rattle.console.specs.Loops.Parts.{WholeList, RunsAt, Narrow, NarrowLoaded};

use crate::parts::Run;
use crate::{fronts, numbers, parts, rooms};
use files::saved::Header;
use problem::refusal::Refusal;
use search::state::{Ran, State};

// Opening. It begins as the chooser, save and load do: one struct of the three arrays would be zeroed whole, what the words fill too.
pub(crate) fn open(
    n: usize,
    d: usize,
    domains: &[u8],
    tables: &[u8],
    agenda: &mut [u8],
) -> Result<State, Refusal>
    ensures { OpensBytes n d domains.now tables.now agenda.old agenda.new (opened result) × ((opened result).state.subproblems < 4294967296) }
{
    if !rooms::room_for(domains.len(), tables.len(), agenda.len()) {
        return Err(numbers::unwhole(n, d));
    }
    let mut domain_words = [0u16; rooms::DOMAIN_WORDS];
    let mut agenda_words = [0u16; rooms::AGENDA_WORDS];
    let mut table_words = [0u16; rooms::TABLE_WORDS];
    let made = word_bytes::three_of(
        domains,
        agenda,
        tables,
        &mut domain_words,
        &mut agenda_words,
        &mut table_words,
    );
    let opened = search::open(
        n,
        d,
        &domain_words[..made.first],
        &table_words[..made.third],
        &mut agenda_words[..made.second],
    );
    word_bytes::bytes_of(&agenda_words, agenda);
    opened
}

// A run of a few requests in a short agenda: the words made for it are no more than these need.
fn run_short(run: &Run, agenda: &mut [u8]) -> Ran
    requires { Fits (length agenda.old) 8704 × (length run.now.requests.now ≤ 1120) }
    ensures { let r = run.now in RunsAt r.n r.d r.domains.now r.tables.now agenda.old agenda.new r.requests.now r.state (ran result) × Narrow (ran result) }
{
    let mut words = [0u16; rooms::SHORT_WORDS];
    let room = word_bytes::words_of(agenda, &mut words);
    let mut listed = [0u16; rooms::FEW_WORDS];
    let count = word_bytes::words_of(run.requests, &mut listed);
    let ran = search::run(
        run.n,
        run.d,
        run.domains,
        run.tables,
        &mut words[..room],
        &listed[..count],
        run.state,
    );
    fronts::write_back(
        run.n,
        run.state.subproblems,
        ran.taken,
        ran.state.subproblems,
        &words[..room],
        agenda,
    );
    ran
}

// A run of any requests in any agenda.
fn run_long(run: &Run, agenda: &mut [u8]) -> Ran
    requires { Fits (length agenda.old) 17408 }
    ensures { let r = run.now in RunsAt r.n r.d r.domains.now r.tables.now agenda.old agenda.new r.requests.now r.state (ran result) × Narrow (ran result) }
{
    let mut words = [0u16; rooms::AGENDA_WORDS];
    let room = word_bytes::words_of(agenda, &mut words);
    let ran = parts::run_parts(run, &mut words[..room]);
    fronts::write_back(
        run.n,
        run.state.subproblems,
        ran.taken,
        ran.state.subproblems,
        &words[..room],
        agenda,
    );
    ran
}

// A run in so much of an agenda as tells how it ends. Its words are made one slice after another: how many are made of the agenda depends on it.
fn run_words(
    n: usize,
    d: usize,
    domains: &[u8],
    tables: &[u8],
    agenda: &mut [u8],
    requests: &[u8],
    state: State,
) -> Ran
    requires { Room domains.now tables.now agenda.old 17408 × (WholeList n (length requests.now) × (state.subproblems < 4294967296)) }
    ensures { RunsWords n d domains.now tables.now agenda.old agenda.new requests.now state (ran result) × Narrow (ran result) }
{
    let mut domain_words = [0u16; rooms::DOMAIN_WORDS];
    let variables = word_bytes::words_of(domains, &mut domain_words);
    let mut table_words = [0u16; rooms::TABLE_WORDS];
    let masks = word_bytes::words_of(tables, &mut table_words);
    let run = Run {
        n,
        d,
        domains: &domain_words[..variables],
        tables: &table_words[..masks],
        requests,
        state,
    };
    if rooms::few(agenda.len(), requests.len()) {
        return run_short(&run, agenda);
    }
    run_long(&run, agenda)
}

// A run, in the front of the agenda where that tells how it ends. Of that front it is asked whether there is room: an agenda longer than its front is
// whole slots, no more than the rules allow.
pub(crate) fn run(
    n: usize,
    d: usize,
    domains: &[u8],
    tables: &[u8],
    agenda: &mut [u8],
    requests: &[u8],
    state: State,
) -> Ran
    requires { state.subproblems < 4294967296 }
    ensures { RunsBytes n d domains.now tables.now agenda.old agenda.new requests.now state (ran result) × Narrow (ran result) }
{
    if !rooms::whole_list(n, requests.len()) {
        return numbers::refused(n, d, state);
    }
    let front = fronts::front_of(n, state.subproblems, requests.len(), agenda);
    if !rooms::room_for(domains.len(), tables.len(), front) {
        return numbers::refused(n, d, state);
    }
    run_words(n, d, domains, tables, &mut agenda[..front], requests, state)
}

// The house chooser.
pub(crate) fn choose(
    n: usize,
    d: usize,
    domains: &[u8],
    tables: &[u8],
    agenda: &mut [u8],
    limit: usize,
    state: State,
) -> Ran
    requires { state.subproblems < 4294967296 }
    ensures { ChoosesBytes n d domains.now tables.now agenda.old agenda.new limit state (ran result) × Narrow (ran result) }
{
    if !rooms::room_for(domains.len(), tables.len(), agenda.len()) {
        return numbers::refused(n, d, state);
    }
    let mut domain_words = [0u16; rooms::DOMAIN_WORDS];
    let mut agenda_words = [0u16; rooms::AGENDA_WORDS];
    let mut table_words = [0u16; rooms::TABLE_WORDS];
    let made = word_bytes::three_of(
        domains,
        agenda,
        tables,
        &mut domain_words,
        &mut agenda_words,
        &mut table_words,
    );
    let ran = search::choose(
        n,
        d,
        &domain_words[..made.first],
        &table_words[..made.third],
        &mut agenda_words[..made.second],
        limit,
        state,
    );
    word_bytes::bytes_of(&agenda_words, agenda);
    ran
}

// Save.
pub(crate) fn save(
    n: usize,
    d: usize,
    domains: &[u8],
    tables: &[u8],
    agenda: &[u8],
    state: State,
    file: &mut [u8],
) -> Result<usize, Refusal>
    ensures { SavesBytes n d domains.now tables.now agenda.now state file.old file.new (saved result) × ((saved result).blocks < 4294967296) }
{
    if !rooms::room_for(domains.len(), tables.len(), agenda.len()) {
        return Err(numbers::unwhole(n, d));
    }
    let mut domain_words = [0u16; rooms::DOMAIN_WORDS];
    let mut agenda_words = [0u16; rooms::AGENDA_WORDS];
    let mut table_words = [0u16; rooms::TABLE_WORDS];
    let made = word_bytes::three_of(
        domains,
        agenda,
        tables,
        &mut domain_words,
        &mut agenda_words,
        &mut table_words,
    );
    files::save(
        n,
        d,
        &domain_words[..made.first],
        &table_words[..made.third],
        &agenda_words[..made.second],
        state,
        file,
    )
}

// Load into no words at all: what the file deserves, or 3.
fn load_none(file: &[u8]) -> Result<Header, Refusal>
    ensures { loaded result ≡ unloaded file.now }
{
    let mut domain_words = [0u16; 0];
    let mut table_words = [0u16; 0];
    let mut agenda_words = [0u16; 0];
    files::load(file, &mut domain_words, &mut table_words, &mut agenda_words)
}

// Load.
pub(crate) fn load(
    file: &[u8],
    domains: &mut [u8],
    tables: &mut [u8],
    agenda: &mut [u8],
) -> Result<Header, Refusal>
    ensures { LoadsBytes file.now domains.old domains.new tables.old tables.new agenda.old agenda.new (loaded result) × NarrowLoaded (loaded result) }
{
    if !rooms::room_for(domains.len(), tables.len(), agenda.len()) {
        return load_none(file);
    }
    let mut domain_words = [0u16; rooms::DOMAIN_WORDS];
    let mut agenda_words = [0u16; rooms::AGENDA_WORDS];
    let mut table_words = [0u16; rooms::TABLE_WORDS];
    let made = word_bytes::three_of(
        domains,
        agenda,
        tables,
        &mut domain_words,
        &mut agenda_words,
        &mut table_words,
    );
    let loaded = files::load(
        file,
        &mut domain_words[..made.first],
        &mut table_words[..made.third],
        &mut agenda_words[..made.second],
    );
    word_bytes::bytes_of(&domain_words, domains);
    word_bytes::bytes_of(&table_words, tables);
    word_bytes::bytes_of(&agenda_words, agenda);
    loaded
}
