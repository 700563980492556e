// A saved search: blocks of 512 bytes, save and load.
#![tactic(auto)]

ghost use Rattle.std.specs.Prelude.{◌≡◌, replicate};
ghost use Rattle.files.specs.Calls.{Saves, Loads};
ghost use Rattle.files.specs.Outcomes.{saved, loaded};

use crate::reading::Content;
use crate::saved::Header;
use crate::sizes::{MASKS, Sizes, WORDS};
use problem::refusal::Refusal;
use search::state::State;

mod content;
mod copying;
mod filling;
mod reading;
pub mod said;
pub mod saved;
mod sizes;

// Writes the blocks of a search into the file buffer and leaves the rest of it; refused, changes nothing.
pub fn save(
    n: usize,
    d: usize,
    domains: &[u16],
    tables: &[u16],
    agenda: &[u16],
    state: State,
    file: &mut [u8],
) -> Result<usize, Refusal>
    ensures { Saves n d domains.now tables.now agenda.now state file.old file.new (saved result) }
{
    search::first_checks::search_refusal(n, d, domains, tables, agenda, state)?;
    let sizes = Sizes { n, d };
    let blocks = (sizes.words(state.subproblems) + 252) / blocks::CONTENT;
    if file.len() < blocks::BYTES * blocks {
        return Err(Refusal::Buffer);
    }
    let mut words = zeros::<WORDS>();
    content::put(sizes, domains, tables, agenda, state, &mut words);
    blocks::writing::put_blocks(&words[..blocks * blocks::CONTENT], file);
    Ok(blocks)
}

// Zeros.
fn zeros<const N: usize>() -> [u16; N]
    ensures { result ≡ replicate N 0 }
{
    [0; N]
}

// Hands back what the file says and writes it into the lent memory; refused, changes nothing.
pub fn load(
    file: &[u8],
    domains: &mut [u16],
    tables: &mut [u16],
    agenda: &mut [u16],
) -> Result<Header, Refusal>
    ensures { Loads file.now domains.old domains.new tables.old tables.new agenda.old agenda.new (loaded result) }
{
    blocks::reading::refusal_of_file(file)?;
    let header = said::header_of(file);
    if !reading::is_sized(file, header) {
        return Err(Refusal::Content);
    }
    let mut words = zeros::<WORDS>();
    blocks::reading::put_content(file, &mut words[..WORDS]);
    let content = Content {
        sizes: Sizes {
            n: header.n,
            d: header.d,
        },
        state: header.state,
        file,
        words: &words,
    };
    load_content(&content, domains, tables, agenda)
}

// The same of what was read of a file.
fn load_content(
    content: &Content,
    domains: &mut [u16],
    tables: &mut [u16],
    agenda: &mut [u16],
) -> Result<Header, Refusal>
    ensures { Loads content.now.file.now domains.old domains.new tables.old tables.new agenda.old agenda.new (loaded result) }
{
    let mut room = zeros::<MASKS>();
    let count = filling::put_tables(content, &mut room);
    let masks = &room[..count];
    content.refusal(masks, domains.len(), tables.len(), agenda.len())?;
    filling::put_search(content, masks, domains, tables, agenda);
    Ok(Header {
        n: content.sizes.n,
        d: content.sizes.d,
        state: content.state,
    })
}
