// Steps: the grammar of a block, walked in one place. A step says what stands next: a block's start, an item left out, a word, a block's end or the end of the
// program; or it is refused. Whoever counts, gathers or lists blocks is a loop over steps and knows no character of the tape.
#![tactic(auto)]

pub mod walking;

use parts::Begun;
use rows::Kept;
use words::Word;

// Where a walk over blocks stands: between two of them, before an item of one, or behind the last item that can be reached.
#[derive(Clone, Copy)]
pub enum Stage {
    Between,
    Before,
    Ending,
}

// The same with the item, below 22, whether the open block is still empty, with neither number nor word, and the next kept row.
// Stays so: the item stands beside the stage: whoever walks hands over the cursor's item at every stage, and asks none
// Stage and empty stand side by side: apart, the seven bytes behind each are copied in two moves that overlap, which took a sixth of the time
#[derive(Clone, Copy)]
pub struct Cursor {
    pub stage: Stage,
    pub empty: bool,
    pub item: usize,
    pub front: Option<Kept>,
}

// What a step meets: the end of the tape, a block's start, an item left out, a word, or a block's end with its LF.
#[derive(Clone, Copy)]
pub enum Event {
    Finished,
    Opened(Begun),
    Out,
    Read(Word),
    Closed(usize),
}

// A step: what it meets, and where it leaves the walk.
#[derive(Clone, Copy)]
pub struct Step {
    pub event: Event,
    pub cursor: Cursor,
}
