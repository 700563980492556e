// How many bytes are turned into words: those of any problem, of any agenda, and of a few requests.
ghost use Rattle.std.specs.Prelude.{◌≡◌};
ghost use Rattle.console.specs.Loops.Rooms.{room_for, few, whole_list};

// The words of the most variables, of the most masks (32 * 32 * 16) and of the most slots (512 of 34 words).
pub(crate) const DOMAIN_WORDS: usize = 32;

pub(crate) const TABLE_WORDS: usize = 16384;

pub(crate) const AGENDA_WORDS: usize = 17408;

// The words of a short agenda, 256 slots of 32 variables, and of a few requests, 16 of 32 variables.
pub(crate) const SHORT_WORDS: usize = 8704;

pub(crate) const FEW_WORDS: usize = 560;

// Whether domains, tables and agenda are whole words, none of them empty, and no more words than any problem and any agenda have.
pub(crate) fn room_for(domains: usize, tables: usize, agenda: usize) -> bool
    ensures { result ≡ room_for domains tables agenda }
{
    word_bytes::all_fit(
        domains,
        tables,
        agenda,
        DOMAIN_WORDS,
        TABLE_WORDS,
        AGENDA_WORDS,
    )
}

// Whether so many bytes of an agenda are short and those of requests few.
#[tactic(auto, unfolding(crate::specs::Loops::Rooms::few))]
pub(crate) fn few(agenda: usize, requests: usize) -> bool
    ensures { result ≡ few agenda requests }
{
    agenda <= 2 * SHORT_WORDS && requests <= 2 * FEW_WORDS
}

// Whether so many bytes are whole requests; of n above 32 no length is.
#[tactic(auto, unfolding(crate::specs::Loops::Rooms::whole_list))]
pub(crate) fn whole_list(n: usize, bytes: usize) -> bool
    ensures { result ≡ whole_list n bytes }
{
    n <= 32 && bytes % (2 * (n + 3)) == 0
}
