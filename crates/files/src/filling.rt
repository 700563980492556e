// What load writes: the tables in full, and the lent memory.
ghost use Rattle.std.specs.Prelude.{◌≡◌, ◌+◌, ◌*◌, ◌<◌, ◌≤◌, length, replicate};
ghost use Rattle.problem.specs.Lists.{splice};
ghost use Rattle.files.specs.Loops.Said.{column_part, row_part, table_part, part_in, slots_part, Lent};

use crate::copying;
use crate::reading::Content;
use crate::sizes::MASKS;

// Rows for columns, from `at` on: the masks of two variables the other way round; where they end.
fn put_turned(rows: &[u16], masks: &mut [u16], at: usize) -> usize
    requires { (length rows.now ≤ 16) × (at + length rows.now ≤ length masks.old) }
    ensures { (masks.new ≡ splice masks.old at (column_part rows.now (length rows.now))) × (result ≡ at + length rows.now) }
{
    let mut all = [0u16; 16];
    copying::put_at(rows, &mut all[..16], 0);
    let turned = problem::matrix::turned(all);
    let count = rows.len();
    copying::put_at(&turned[..count], masks, at)
}

// The masks of a variable with those before it, which stand the other way round, from `at` on; where they end.
fn put_before(content: &Content, i: usize, masks: &mut [u16], at: usize) -> usize
    requires { let c = content.now in (i < c.sizes.n) × (at + i * c.sizes.d ≤ length masks.old) }
    ensures { let c = content.now in (masks.new ≡ splice masks.old at (row_part c.words.now c.sizes.n c.sizes.d i i)) × (result ≡ at + i * c.sizes.d) }
{
    let mut end = at;
    for j in 0..i {
        end = put_turned(content.masks(j, i), masks, end);
    }
    end
}

// The tables, from the words of a content, in words that are zeros: the masks of each variable with those before it,
// nothing for it with itself, then the rest; how many there are.
pub(crate) fn put_tables(content: &Content, masks: &mut [u16; MASKS]) -> usize
    requires { masks.old ≡ replicate 16384 0 }
    ensures { let c = content.now in (masks.new ≡ splice masks.old 0 (table_part c.words.now c.sizes.n c.sizes.d c.sizes.n)) × (result ≡ c.sizes.n * (c.sizes.n * c.sizes.d)) }
{
    let mut end = 0;
    for i in 0..content.sizes.n {
        let own = put_before(content, i, masks, end);
        end = copying::put_at(content.masks_after(i), masks, own + content.sizes.d);
    }
    end
}

// The domains, the tables and the agenda into the lent memory, zeros after the subproblems.
pub(crate) fn put_search(
    content: &Content,
    masks: &[u16],
    domains: &mut [u16],
    tables: &mut [u16],
    agenda: &mut [u16],
)
    requires { let c = content.now in Lent c.sizes.n c.state.subproblems masks.now domains.old tables.old agenda.old }
    ensures { let c = content.now in (domains.new ≡ part_in c.words.now 9 c.sizes.n) × ((tables.new ≡ masks.now) × (agenda.new ≡ slots_part c.words.now c.sizes.n c.sizes.d c.state.subproblems (length agenda.old))) }
{
    copying::put_words(content.domains(), domains);
    copying::put_words(masks, tables);
    let end = copying::put_at(content.slots(content.state.subproblems), agenda, 0);
    copying::put_zeros(agenda, end);
}
