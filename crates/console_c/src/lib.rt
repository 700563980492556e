// The five calls of console, exported under their C names: the static library that C callers link.
#![tactic(auto)]

ghost use Rattle.console.specs.Calls.{OpensForC, RunsForC, ChoosesForC, SavesForC, LoadsForC};

// Opens a search.
#[unsafe(no_mangle)]
pub extern "C" fn rastwob_open(
    n: u32,
    d: u32,
    domains: &[u8],
    tables: &[u8],
    agenda: &mut [u8],
    steps: &mut u32,
    checks: &mut u64,
    subproblems: &mut u32,
) -> u32
    ensures { OpensForC n d domains.now tables.now agenda.old agenda.new steps.new checks.new subproblems.new result }
{
    console::rastwob_open(n, d, domains, tables, agenda, steps, checks, subproblems)
}

// Runs a list of requests.
#[unsafe(no_mangle)]
pub extern "C" fn rastwob_run(
    n: u32,
    d: u32,
    domains: &[u8],
    tables: &[u8],
    agenda: &mut [u8],
    requests: &[u8],
    steps: &mut u32,
    checks: &mut u64,
    subproblems: &mut u32,
    verdict: &mut u32,
    taken: &mut u32,
) -> u32
    ensures { RunsForC n d domains.now tables.now agenda.old agenda.new requests.now steps.old steps.new checks.old checks.new subproblems.old subproblems.new verdict.new taken.new result }
{
    console::rastwob_run(
        n,
        d,
        domains,
        tables,
        agenda,
        requests,
        steps,
        checks,
        subproblems,
        verdict,
        taken,
    )
}

// Runs up to `limit` steps by the house chooser.
#[unsafe(no_mangle)]
pub extern "C" fn rastwob_choose(
    n: u32,
    d: u32,
    domains: &[u8],
    tables: &[u8],
    agenda: &mut [u8],
    limit: u32,
    steps: &mut u32,
    checks: &mut u64,
    subproblems: &mut u32,
    verdict: &mut u32,
    taken: &mut u32,
) -> u32
    ensures { ChoosesForC n d domains.now tables.now agenda.old agenda.new limit steps.old steps.new checks.old checks.new subproblems.old subproblems.new verdict.new taken.new result }
{
    console::rastwob_choose(
        n,
        d,
        domains,
        tables,
        agenda,
        limit,
        steps,
        checks,
        subproblems,
        verdict,
        taken,
    )
}

// Writes the blocks of a search into the file buffer.
#[unsafe(no_mangle)]
pub extern "C" fn rastwob_save(
    n: u32,
    d: u32,
    domains: &[u8],
    tables: &[u8],
    agenda: &[u8],
    steps: u32,
    checks: u64,
    subproblems: u32,
    file: &mut [u8],
    blocks: &mut u32,
) -> u32
    ensures { SavesForC n d domains.now tables.now agenda.now steps checks subproblems file.old file.new blocks.new result }
{
    console::rastwob_save(
        n,
        d,
        domains,
        tables,
        agenda,
        steps,
        checks,
        subproblems,
        file,
        blocks,
    )
}

// Hands out what the file says and writes it into the lent memory.
#[unsafe(no_mangle)]
pub extern "C" fn rastwob_load(
    file: &[u8],
    domains: &mut [u8],
    tables: &mut [u8],
    agenda: &mut [u8],
    n: &mut u32,
    d: &mut u32,
    steps: &mut u32,
    checks: &mut u64,
    subproblems: &mut u32,
) -> u32
    ensures { LoadsForC file.now domains.old domains.new tables.old tables.new agenda.old agenda.new n.new d.new steps.new checks.new subproblems.new result }
{
    console::rastwob_load(
        file,
        domains,
        tables,
        agenda,
        n,
        d,
        steps,
        checks,
        subproblems,
    )
}
