// The corrected listing through the indexes of the two tapes: by scans of their numbers, without a walk.
ghost use Rattle.std.specs.Prelude.{◌≡◌};
ghost use Rattle.rows.specs.Answer.{told};
ghost use Rattle.corrections.specs.Listing.{is_new};
ghost use Rattle.corrections.specs.Answers.{entry_indexed};

use crate::choosing::{Numbers, entry_of};
use crate::{Named, choosing};
use index::{NO_NUMBER, find_number};
use rows::Refusal;

impl<'a> Numbers for &'a [u64] {
    ghost numbers = { λ s. s.now };

    fn count(&self) -> usize {
        self.len()
    }

    fn number_at(&self, n: usize) -> u64 {
        self.get(n).copied().unwrap_or(NO_NUMBER)
    }

    fn find(&self, q: u64) -> Result<usize, Refusal> {
        find_number(*self, q)
    }
}

// Whether the correction's block n has an entry of its own.
pub fn is_new(correction: &[u64], master: &[u64], n: usize) -> bool
    ensures { result ≡ is_new correction.now master.now n }
{
    choosing::is_new(&correction, &master, n)
}

// Entry n of the corrected listing, from 0, by the numbers in the indexes of the two tapes.
pub fn indexed_entry(correction: &[u64], master: &[u64], n: usize) -> Result<Named, Refusal>
    ensures { told result ≡ entry_indexed correction.now master.now n }
{
    entry_of(&correction, &master, n)
}
