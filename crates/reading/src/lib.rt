// Reading: the blocks of a tape under an edition, a shorthand and a profile: their number, block n, its rows. A profile of no bytes is none.
#![tactic(auto)]

ghost use Rattle.std.specs.Prelude.{◌≡◌};
ghost use Rattle.rows.specs.Answer.{number_of, place_of, taken, told, told_by};
ghost use Rattle.reading.specs.Answers.{read, counted, block_numbered, rows_numbered};
ghost use Rattle.reading.specs.Front.{nth_part, nth_block, has_block};

pub mod records;
pub mod walk;

use profile::Terms;
use records::block_from;
use rows::{Cause, Refusal};
use shorthand::Usable;
use walk::survey_tape;
use words::Word;

// A block: optional skip, alignment, whether it has a number, its number, 0 where it has none, and its words. Places past the count hold letter 0 and plain
// number 0.
// Stays so: numbered stands beside sequence, and count beside 22 places: a record handed to punching may hold any number and any words there; no heap
#[derive(Clone, Copy)]
pub struct Block {
    pub skip: bool,
    pub alignment: bool,
    pub numbered: bool,
    pub sequence: u64,
    pub count: usize,
    pub words: [Word; 22],
}

// A block of a tape, and its rows: from just after the end before it to its own LF, included.
#[derive(Clone, Copy)]
pub struct Entry {
    pub block: Block,
    pub from: usize,
    pub to: usize,
}

// Where the rows of a block stand: from a row up to, and without, another.
#[derive(Clone, Copy)]
pub struct Part {
    pub from: usize,
    pub to: usize,
}

// The number of blocks, where the rows of one of them stand, and where those of the last do: where there is none, no rows just after the head.
#[derive(Clone, Copy)]
pub struct Survey {
    pub count: usize,
    pub part: Part,
    pub last: Part,
}

// Whether block n is among the count.
pub fn among(count: usize, n: usize) -> Result<(), Refusal>
    ensures { told result ≡ has_block n (taken count) }
{
    if n < count {
        Ok(())
    } else {
        Err(Cause::NoBlock.at(count))
    }
}

// The same of a count that may have been refused.
pub fn within(count: Result<usize, Refusal>, n: usize) -> Result<(), Refusal>
    ensures { told result ≡ has_block n (told count) }
{
    among(count?, n)
}

// The number of an outcome, 0 where nothing is refused.
pub fn number_of(outcome: Result<(), Refusal>) -> u32
    ensures { result ≡ number_of (told outcome) }
{
    match outcome {
        Ok(()) => 0,
        Err(refusal) => u32::from(refusal.cause),
    }
}

// And its place.
pub fn place_of(outcome: Result<(), Refusal>) -> usize
    ensures { result ≡ place_of (told outcome) }
{
    match outcome {
        Ok(()) => 0,
        Err(refusal) => refusal.place,
    }
}

// The number of blocks of a tape.
#[tactic(auto, unfolding(crate::specs::Answers::read_under))]
pub fn count_blocks(terms: &Terms<'_>, tape: &[u8]) -> Result<usize, Refusal>
    ensures { told result ≡ counted terms.now.edition terms.now.shorthand.now terms.now.profile.now tape.now }
{
    let survey = survey_tape(tape, profile::parse(terms)?, 0)?;
    Ok(survey.count)
}

// Where the rows of block n stand, under a Format.
fn find_under(tape: &[u8], usable: Usable, n: usize) -> Result<Part, Refusal>
    ensures { told result ≡ nth_part n (read usable.format tape.now) }
{
    let survey = survey_tape(tape, usable, n)?;
    among(survey.count, n)?;
    Ok(survey.part)
}

// Block n under a Format: found by the walk over all blocks, and then gathered from its own first row.
fn read_under(tape: &[u8], usable: Usable, n: usize) -> Result<Block, Refusal>
    ensures { told result ≡ nth_block n (read usable.format tape.now) }
{
    let part = find_under(tape, usable, n)?;
    let entry = block_from(tape, usable, part.from)?;
    Ok(entry.block)
}

// Block n of a tape, from 0.
#[tactic(auto, unfolding(crate::specs::Answers::read_under))]
pub fn read_block(terms: &Terms<'_>, tape: &[u8], n: usize) -> Result<Block, Refusal>
    ensures { told result ≡ block_numbered terms.now.edition terms.now.shorthand.now terms.now.profile.now tape.now n }
{
    read_under(tape, profile::parse(terms)?, n)
}

// The rows of block n, from just after the end before it to its own LF, as a part of the caller's own tape.
#[tactic(auto, unfolding(crate::specs::Answers::read_under))]
pub fn block_rows<'a>(terms: &Terms<'_>, tape: &'a [u8], n: usize) -> Result<&'a [u8], Refusal>
    ensures { told_by (λ rows. rows.now) result ≡ rows_numbered terms.now.edition terms.now.shorthand.now terms.now.profile.now tape.now n }
{
    let rows = find_under(tape, profile::parse(terms)?, n)?;
    Ok(&tape[rows.from..rows.to])
}
