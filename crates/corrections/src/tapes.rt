// The same by the tapes alone: each is judged by one walk, and then its blocks are read one behind another.
ghost use Rattle.std.specs.Prelude.{◌≡◌};
ghost use Rattle.rows.specs.Answer.{told, told_by};
ghost use Rattle.reading.specs.Answers.{nth, read};
ghost use Rattle.index.specs.Index.{numbers_of, entries_of};
ghost use Rattle.corrections.specs.Listing.{listing};
ghost use Rattle.corrections.specs.Answers.{nth_named, both_for, place_in};
ghost use Rattle.corrections.specs.Rolls.{Rolls, one_roll, sought};

use crate::choosing::{Numbers, entry_of};
use crate::{Named, Place, Tape};
use index::NO_NUMBER;
use index::building::mark_number;
use reading::records::block_from;
use reading::walk::survey_tape;
use reading::{Entry, Part, among};
use rows::{Cause, Refusal};
use shorthand::Usable;

// A tape that was judged and accepted under a Format: the first row of its first block, and how many blocks it has.
#[derive(Clone, Copy)]
struct Roll<'a> {
    tape: &'a [u8],
    usable: Usable,
    first: usize,
    count: usize,
    ghost rolls: { Rolls usable.format tape.now first count } by { one_roll usable.format tape.now first count },
}

// A block by its number: which it is, and where it stands.
#[derive(Clone, Copy)]
pub struct Sought {
    pub block: usize,
    pub part: Part,
}

impl<'a> Roll<'a> {
    // All four stages of a tape.
    fn judge(tape: &'a [u8], usable: Usable) -> Result<Roll<'a>, Refusal>
        ensures { told_by (λ r. entries_of r.usable.format r.tape.now) result ≡ read usable.format tape.now }
    {
        let survey = survey_tape(tape, usable, 0)?;
        let part = survey.part;
        Ok(Roll {
            tape,
            usable,
            first: part.from,
            count: survey.count,
        })
    }

    // Block n.
    fn entry(&self, n: usize) -> Result<Entry, Refusal>
        ensures { told result ≡ nth n (entries_of self.now.usable.format self.now.tape.now) }
    {
        among(self.count, n)?;
        let survey = survey_tape(self.tape, self.usable, n)?;
        let part = survey.part;
        block_from(self.tape, self.usable, part.from)
    }

    // The first block of a number, and where it stands.
    fn seek(&self, q: u64) -> Result<Sought, Refusal>
        ensures { told result ≡ sought (entries_of self.now.usable.format self.now.tape.now) q }
    {
        if q == NO_NUMBER {
            return Err(Cause::NoNumber.at(0));
        }
        let mut from = self.first;
        for block in 0..self.count {
            let entry = block_from(self.tape, self.usable, from)?;
            let own = entry.block;
            if mark_number(own.numbered, own.sequence) == q {
                return Ok(Sought {
                    block,
                    part: Part {
                        from: entry.from,
                        to: entry.to,
                    },
                });
            }
            from = entry.to;
        }
        Err(Cause::NoNumber.at(0))
    }
}

impl<'a> Numbers for Roll<'a> {
    ghost numbers = { λ r. numbers_of (entries_of r.usable.format r.tape.now) };

    fn count(&self) -> usize {
        self.count
    }

    fn number_at(&self, n: usize) -> u64 {
        match self.entry(n) {
            Ok(entry) => {
                let own = entry.block;
                mark_number(own.numbered, own.sequence)
            }
            Err(_) => NO_NUMBER,
        }
    }

    fn find(&self, q: u64) -> Result<usize, Refusal> {
        let found = self.seek(q)?;
        Ok(found.block)
    }
}

// Entry n of the corrected listing under a Format: the correction is judged first, then the master.
pub(crate) fn entry_under(
    correction: &[u8],
    master: &[u8],
    usable: Usable,
    n: usize,
) -> Result<Named, Refusal>
    ensures { told result ≡ both_for usable.format correction.now master.now (λ cs ms. nth_named n (listing (numbers_of cs) (numbers_of ms))) }
{
    let corrections = Roll::judge(correction, usable)?;
    let masters = Roll::judge(master, usable)?;
    entry_of(&corrections, &masters, n)
}

// Where the first block with a number stands, under a Format: the correction is judged first, then the master.
pub(crate) fn place_under(
    correction: &[u8],
    master: &[u8],
    usable: Usable,
    q: u64,
) -> Result<Place, Refusal>
    ensures { told result ≡ both_for usable.format correction.now master.now (place_in q) }
{
    let corrections = Roll::judge(correction, usable)?;
    let masters = Roll::judge(master, usable)?;
    if let Ok(found) = corrections.seek(q) {
        return Ok(Place {
            tape: Tape::Correction,
            part: found.part,
        });
    }
    let found = masters.seek(q)?;
    Ok(Place {
        tape: Tape::Master,
        part: found.part,
    })
}
