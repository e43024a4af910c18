// The corrected listing of two tapes, by the numbers of their blocks, wherever those are from: an index, or the tape itself.
ghost use Rattle.std.specs.Prelude.{◌≡◌, ℕ, List, length};
ghost use Rattle.rows.specs.Answer.{told};
ghost use Rattle.index.specs.Finding.{number_found};
ghost use Rattle.corrections.specs.Listing.{number_at, entry_for, is_new};
ghost use Rattle.corrections.specs.Answers.{entry_indexed};

use crate::{Named, Tape};
use rows::{Cause, Refusal};

// Where the numbers of some blocks are from, with the mark for a missing one.
pub trait Numbers {
    ghost numbers: { Self → List ℕ };

    // How many blocks there are.
    fn count(&self) -> usize
        ensures { result ≡ length (numbers self.now) };

    // The number of block n, or the mark.
    fn number_at(&self, n: usize) -> u64
        ensures { result ≡ number_at (numbers self.now) n };

    // The first block of a number.
    fn find(&self, q: u64) -> Result<usize, Refusal>
        ensures { told result ≡ number_found (numbers self.now) q };
}

// The entry of the master's block n.
fn master_entry<N: Numbers>(correction: &N, master: &N, n: usize) -> Named
    ensures { result ≡ entry_for (N.numbers correction.now) (N.numbers master.now) n }
{
    let q = master.number_at(n);
    let first = master.find(q);
    if first.is_ok_and(|at| at == n) {
        if let Ok(block) = correction.find(q) {
            return Named {
                tape: Tape::Correction,
                block,
            };
        }
    }
    Named {
        tape: Tape::Master,
        block: n,
    }
}

// Whether the correction's block n has an entry of its own.
pub(crate) fn is_new<N: Numbers>(correction: &N, master: &N, n: usize) -> bool
    ensures { result ≡ is_new (N.numbers correction.now) (N.numbers master.now) n }
{
    let q = correction.number_at(n);
    let first = correction.find(q);
    first.is_ok_and(|at| at == n) && master.find(q).is_err()
}

// Entry n of the listing: the master's first, and behind them the new ones of the correction; or 15 at their number.
pub(crate) fn entry_of<N: Numbers>(correction: &N, master: &N, n: usize) -> Result<Named, Refusal>
    ensures { told result ≡ entry_indexed (N.numbers correction.now) (N.numbers master.now) n }
{
    let masters = master.count();
    if n < masters {
        return Ok(master_entry(correction, master, n));
    }
    let mut left = n - masters;
    for block in 0..correction.count() {
        if is_new(correction, master, block) {
            if left == 0 {
                return Ok(Named {
                    tape: Tape::Correction,
                    block,
                });
            }
            left -= 1;
        }
    }
    Err(Cause::NoBlock.at(n - left))
}
