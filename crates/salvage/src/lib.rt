// Saves what can be saved of a damaged tape: each piece up to an LF row that head and piece alone would not be accepted with is overpunched, and listed.
#![tactic(auto)]

ghost use Rattle.std.specs.Prelude.{◌≡◌};
ghost use Rattle.rows.specs.Answer.{told};
ghost use Rattle.punching.specs.Answers.{after};
ghost use Rattle.salvage.specs.Saving.{salvaged_in, salvaged_lent};
ghost use Rattle.salvage.specs.Answers.{lost_in, rows_after, listed};

mod pieces;
mod saving;

use index::building::judge_room;
use pieces::{count_losses, judge_head, piece_end};
use profile::Terms;
use rows::{Cause, LIMIT, Refusal};
use saving::save_pieces;
use shorthand::Usable;

// Under a Format: nothing is written before every refusal is excluded.
// Three lent lists and no struct of them: each clause speaks of one, and the public function takes them apart.
fn salvage_under(
    usable: Usable,
    tape: &mut [u8],
    firsts: &mut [usize],
    sizes: &mut [usize],
    numbers: &mut [u32],
) -> Result<usize, Refusal>
    ensures lost { told result ≡ lost_in (salvaged_in usable.format tape.old firsts.old sizes.old numbers.old) }
    ensures tape { tape.new ≡ rows_after tape.old (salvaged_in usable.format tape.old firsts.old sizes.old numbers.old) }
    ensures firsts { firsts.new ≡ after firsts.old (listed (λ l. l.first) (salvaged_in usable.format tape.old firsts.old sizes.old numbers.old)) }
    ensures sizes { sizes.new ≡ after sizes.old (listed (λ l. l.size) (salvaged_in usable.format tape.old firsts.old sizes.old numbers.old)) }
    ensures numbers { numbers.new ≡ after numbers.old (listed (λ l. l.number) (salvaged_in usable.format tape.old firsts.old sizes.old numbers.old)) }
{
    if LIMIT < tape.len() {
        return Err(Cause::Length.at(LIMIT));
    }
    let head = piece_end(&tape[..], 0);
    judge_head(&tape[..head], usable)?;
    let lost = count_losses(&tape[..], usable, head);
    judge_room(lost, firsts.len().min(sizes.len()), numbers.len())?;
    save_pieces(usable, tape, head, firsts, sizes, numbers);
    Ok(lost)
}

// Overpunches each piece that can't be saved, lists its first row, its length and the number of its refusal, and answers how many they are.
#[tactic(auto, unfolding(crate::specs::Saving::salvaged))]
pub fn salvage(
    terms: &Terms<'_>,
    tape: &mut [u8],
    firsts: &mut [usize],
    sizes: &mut [usize],
    numbers: &mut [u32],
) -> Result<usize, Refusal>
    ensures lost { told result ≡ lost_in (salvaged_lent terms.now.edition terms.now.shorthand.now terms.now.profile.now tape.old firsts.old sizes.old numbers.old) }
    ensures tape { tape.new ≡ rows_after tape.old (salvaged_lent terms.now.edition terms.now.shorthand.now terms.now.profile.now tape.old firsts.old sizes.old numbers.old) }
    ensures firsts { firsts.new ≡ after firsts.old (listed (λ l. l.first) (salvaged_lent terms.now.edition terms.now.shorthand.now terms.now.profile.now tape.old firsts.old sizes.old numbers.old)) }
    ensures sizes { sizes.new ≡ after sizes.old (listed (λ l. l.size) (salvaged_lent terms.now.edition terms.now.shorthand.now terms.now.profile.now tape.old firsts.old sizes.old numbers.old)) }
    ensures numbers { numbers.new ≡ after numbers.old (listed (λ l. l.number) (salvaged_lent terms.now.edition terms.now.shorthand.now terms.now.profile.now tape.old firsts.old sizes.old numbers.old)) }
{
    let usable = profile::parse(terms)?;
    salvage_under(usable, tape, firsts, sizes, numbers)
}
