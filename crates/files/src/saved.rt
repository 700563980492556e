// What the first words of a file say.
use search::state::State;

#[derive(Clone, Copy)]
pub struct Header {
    pub n: usize,
    pub d: usize,
    pub state: State,
}
