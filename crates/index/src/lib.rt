// The index of a tape's blocks, in two lent arrays: the first row and the number of each. It is built for a tape, and what is found through it is found without a
// walk over what stands before.
// Stays so: two lent arrays, and a mark for a missing number: no heap, and build_index and the theorem Indexes are about them
#![tactic(auto)]

ghost use Rattle.std.specs.Prelude.{◌≡◌, length};
ghost use Rattle.rows.specs.Answer.{told, told_by};
ghost use Rattle.reading.specs.Answers.{size_of};
ghost use Rattle.punching.specs.Answers.{after};
ghost use Rattle.index.specs.Index.{indexed, laid, firsts_of, numbers_of};
ghost use Rattle.index.specs.Finding.{entry_found, block_found, rows_found, number_found};

pub mod building;
pub mod finding;

use building::build_under;
use finding::find_entry;
use profile::Terms;
use reading::{Block, Entry};
use rows::{Cause, Refusal};

// The mark for a missing number.
pub const NO_NUMBER: u64 = 18446744073709551615;

// The index of a tape, and the number of its blocks.
#[tactic(auto, unfolding(crate::specs::Index::indexed))]
pub fn build_index(
    terms: &Terms<'_>,
    tape: &[u8],
    firsts: &mut [usize],
    numbers: &mut [u64],
) -> Result<usize, Refusal>
    ensures count { told result ≡ size_of (indexed terms.now.edition terms.now.shorthand.now terms.now.profile.now tape.now (length firsts.old) (length numbers.old)) }
    ensures firsts { firsts.new ≡ after firsts.old (laid firsts_of (indexed terms.now.edition terms.now.shorthand.now terms.now.profile.now tape.now (length firsts.old) (length numbers.old))) }
    ensures numbers { numbers.new ≡ after numbers.old (laid numbers_of (indexed terms.now.edition terms.now.shorthand.now terms.now.profile.now tape.now (length firsts.old) (length numbers.old))) }
{
    let usable = profile::parse(terms)?;
    build_under(tape, usable, firsts, numbers)
}

// Block n of a tape and where its rows stand, by the first rows of all its blocks.
#[tactic(auto, unfolding(crate::specs::Finding::entry_found))]
fn find_indexed(
    terms: &Terms<'_>,
    tape: &[u8],
    firsts: &[usize],
    n: usize,
) -> Result<Entry, Refusal>
    ensures { told result ≡ entry_found terms.now.edition terms.now.shorthand.now terms.now.profile.now tape.now firsts.now n }
{
    let agreed = profile::parse(terms)?;
    find_entry(tape, agreed, firsts, n)
}

// Block n of a tape, from 0, by the first rows of all its blocks.
pub fn indexed_block(
    terms: &Terms<'_>,
    tape: &[u8],
    firsts: &[usize],
    n: usize,
) -> Result<Block, Refusal>
    ensures { told result ≡ block_found terms.now.edition terms.now.shorthand.now terms.now.profile.now tape.now firsts.now n }
{
    let entry = find_indexed(terms, tape, firsts, n)?;
    Ok(entry.block)
}

// The rows of block n, as a part of the caller's own tape, by the first rows of all blocks.
pub fn indexed_rows<'a>(
    terms: &Terms<'_>,
    tape: &'a [u8],
    firsts: &[usize],
    n: usize,
) -> Result<&'a [u8], Refusal>
    ensures { told_by (λ s. s.now) result ≡ rows_found terms.now.edition terms.now.shorthand.now terms.now.profile.now tape.now firsts.now n }
{
    let found = find_indexed(terms, tape, firsts, n)?;
    Ok(&tape[found.from..found.to])
}

// The first block with a number, by the numbers of all blocks.
pub fn find_number(numbers: &[u64], sequence: u64) -> Result<usize, Refusal>
    ensures { told result ≡ number_found numbers.now sequence }
{
    if sequence != NO_NUMBER {
        for (n, number) in numbers.iter().enumerate() {
            if *number == sequence {
                return Ok(n);
            }
        }
    }
    Err(Cause::NoNumber.at(0))
}
