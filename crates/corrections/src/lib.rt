// Correction tapes: a short tape with altered blocks beside a master tape. The rows of a number on whichever tape holds them, and the corrected listing, entry by
// entry, from the tapes alone or through their indexes.
#![tactic(auto)]

ghost use Rattle.std.specs.Prelude.{◌≡◌};
ghost use Rattle.rows.specs.Answer.{told, told_by};
ghost use Rattle.corrections.specs.Answers.{entry_corrected, place_corrected, rows_corrected};

mod choosing;
pub mod listed;
mod tapes;

use profile::Terms;
use reading::Part;
use rows::Refusal;
use tapes::{entry_under, place_under};

// One of the two tapes.
#[derive(Clone, Copy)]
pub enum Tape {
    Master,
    Correction,
}

// An entry of the corrected listing: a tape, and its block.
#[derive(Clone, Copy)]
pub struct Named {
    pub tape: Tape,
    pub block: usize,
}

// Where some rows stand: on which tape, and from which row to which.
#[derive(Clone, Copy)]
pub struct Place {
    pub tape: Tape,
    pub part: Part,
}

// Entry n of the corrected listing, from 0, by the tapes alone.
#[tactic(auto, unfolding(crate::specs::Answers::entry_corrected))]
pub fn corrected_entry(
    terms: &Terms<'_>,
    correction: &[u8],
    master: &[u8],
    n: usize,
) -> Result<Named, Refusal>
    ensures { told result ≡ entry_corrected terms.now.edition terms.now.shorthand.now terms.now.profile.now correction.now master.now n }
{
    let usable = profile::parse(terms)?;
    entry_under(correction, master, usable, n)
}

// Where the first block with a number stands.
#[tactic(auto, unfolding(crate::specs::Answers::place_corrected))]
fn find_place(
    terms: &Terms<'_>,
    correction: &[u8],
    master: &[u8],
    sequence: u64,
) -> Result<Place, Refusal>
    ensures { told result ≡ place_corrected terms.now.edition terms.now.shorthand.now terms.now.profile.now correction.now master.now sequence }
{
    let agreed = profile::parse(terms)?;
    place_under(correction, master, agreed, sequence)
}

// The rows of the first block with a number, on the correction tape if it has that number, else on the master, as a part of whichever tape holds them.
pub fn corrected_rows<'a>(
    terms: &Terms<'_>,
    correction: &'a [u8],
    master: &'a [u8],
    sequence: u64,
) -> Result<&'a [u8], Refusal>
    ensures { told_by (λ s. s.now) result ≡ rows_corrected terms.now.edition terms.now.shorthand.now terms.now.profile.now correction.now master.now sequence }
{
    let place = find_place(terms, correction, master, sequence)?;
    let part = place.part;
    match place.tape {
        Tape::Correction => Ok(&correction[part.from..part.to]),
        Tape::Master => Ok(&master[part.from..part.to]),
    }
}
