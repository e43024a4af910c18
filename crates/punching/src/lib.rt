// Punching: the tape head, and one block under an edition, a shorthand and a profile: how many rows it needs, and the rows into a lent buffer.
#![tactic(auto)]

ghost use Rattle.std.specs.Prelude.{◌≡◌};
ghost use Rattle.rows.specs.Answer.{told};
ghost use Rattle.punching.specs.Answers.{head_punched, measured, written_for, block_written, block_punched, written, after};

mod compose;
mod line;
mod measure;

use compose::compose_block;
pub use line::magnitude_of;
pub use measure::measure_under;
use profile::Terms;
use reading::Block;
use rows::{Cause, Refusal};
use shorthand::Usable;

// An integer's sign and magnitude.
#[derive(Clone, Copy)]
pub struct Magnitude {
    pub minus: bool,
    pub size: u64,
}

// "%" and LF.
pub fn punch_head(buffer: &mut [u8]) -> Result<usize, Refusal>
    ensures rows { told result ≡ written (head_punched buffer.old) }
    ensures buffer { buffer.new ≡ after buffer.old (head_punched buffer.old) }
{
    if buffer.len() < 2 {
        return Err(Cause::Room.at(2));
    }
    buffer[0] = 165;
    buffer[1] = 10;
    Ok(2)
}

// The writer under a Format: it judges for itself, by the one measure, and asks for room before it writes.
pub fn write_under(usable: Usable, block: Block, buffer: &mut [u8]) -> Result<usize, Refusal>
    ensures rows { told result ≡ written (written_for usable.format block buffer.old) }
    ensures buffer { buffer.new ≡ after buffer.old (written_for usable.format block buffer.old) }
{
    let rows = measure_under(usable, block)?;
    if buffer.len() < rows {
        return Err(Cause::Room.at(rows));
    }
    compose_block(&mut buffer[..rows], usable, block);
    Ok(rows)
}

// How many rows a block needs.
#[tactic(auto, unfolding(crate::specs::Answers::measured))]
pub fn measure_block(terms: &Terms<'_>, block: Block) -> Result<usize, Refusal>
    ensures { told result ≡ measured terms.now.edition terms.now.shorthand.now terms.now.profile.now block }
{
    measure_under(profile::parse(terms)?, block)
}

// The rows of a block, where it has any and they find room.
#[tactic(auto, unfolding(crate::specs::Answers::block_written))]
pub fn write_block(terms: &Terms<'_>, block: Block, buffer: &mut [u8]) -> Result<usize, Refusal>
    ensures rows { told result ≡ written (block_written terms.now.edition terms.now.shorthand.now terms.now.profile.now block buffer.old) }
    ensures buffer { buffer.new ≡ after buffer.old (block_written terms.now.edition terms.now.shorthand.now terms.now.profile.now block buffer.old) }
{
    write_under(profile::parse(terms)?, block, buffer)
}

// One block, measured and written: the writer measures for itself.
pub fn punch_block(terms: &Terms<'_>, block: Block, buffer: &mut [u8]) -> Result<usize, Refusal>
    ensures rows { told result ≡ written (block_punched terms.now.edition terms.now.shorthand.now terms.now.profile.now block buffer.old) }
    ensures buffer { buffer.new ≡ after buffer.old (block_punched terms.now.edition terms.now.shorthand.now terms.now.profile.now block buffer.old) }
{
    write_block(terms, block, buffer)
}
