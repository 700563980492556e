// What the first words of a file say.
ghost use Rattle.std.specs.Prelude.{◌≡◌, ◌+◌, ◌*◌, ◌<◌};
ghost use Rattle.blocks.specs.Reading.{content_word};
ghost use Rattle.files.specs.Calls.{HeaderOf};

use crate::saved::Header;
use search::state::{Checks, Counts, State, Steps};

// Two words of the content as one number, high first.
fn pair_at(file: &[u8], k: usize) -> u32
    requires { k < 65535 }
    ensures { result ≡ content_word file.now k * 65536 + content_word file.now (k + 1) }
{
    u32::from(blocks::reading::content_word(file, k)) * 65536
        + u32::from(blocks::reading::content_word(file, k + 1))
}

// n, d, the steps taken in two words, the checks made in four, the number of subproblems.
pub fn header_of(file: &[u8]) -> Header
    ensures { HeaderOf file.now result }
{
    Header {
        n: usize::from(blocks::reading::content_word(file, 0)),
        d: usize::from(blocks::reading::content_word(file, 1)),
        state: State {
            counts: Counts {
                steps: Steps(pair_at(file, 2)),
                checks: Checks(
                    u64::from(pair_at(file, 4)) * 4294967296 + u64::from(pair_at(file, 6)),
                ),
            },
            subproblems: usize::from(blocks::reading::content_word(file, 8)),
        },
    }
}
