// The pieces that can't be saved overpunched and listed, one behind another.
ghost use Rattle.std.specs.Prelude.{◌≡◌, map, ◌≤◌, length};
ghost use Rattle.rows.specs.Answer.{taken, void};
ghost use Rattle.rows.specs.Stages.{limit};
ghost use Rattle.reading.specs.Answers.{read};
ghost use Rattle.punching.specs.Answers.{after};
ghost use Rattle.salvage.specs.Pieces.{head_of};
ghost use Rattle.salvage.specs.Saving.{saved_of};

use crate::pieces::{judge_piece, piece_end};
use images::rub_out;
use shorthand::Usable;

// All pieces behind an accepted head: each stays, or is overpunched and listed behind the others. The lists have room.
pub(crate) fn save_pieces(
    usable: Usable,
    tape: &mut [u8],
    head: usize,
    firsts: &mut [usize],
    sizes: &mut [usize],
    numbers: &mut [u32],
)
    requires tape_len_bound { (length tape.old ≤ limit) × (head ≡ length (head_of tape.old)) × (taken tt ≡ void (read usable.format (head_of tape.old))) }
    requires tape_in_bounds { (length (saved_of usable.format tape.old).lost ≤ length firsts.old) × (length (saved_of usable.format tape.old).lost ≤ length sizes.old) × (length (saved_of usable.format tape.old).lost ≤ length numbers.old) }
    ensures tape { tape.new ≡ (saved_of usable.format tape.old).rows }
    ensures firsts { firsts.new ≡ after firsts.old (taken (map (λ l. l.first) (saved_of usable.format tape.old).lost)) }
    ensures sizes { sizes.new ≡ after sizes.old (taken (map (λ l. l.size) (saved_of usable.format tape.old).lost)) }
    ensures numbers { numbers.new ≡ after numbers.old (taken (map (λ l. l.number) (saved_of usable.format tape.old).lost)) }
{
    // A loop over places: the pieces are overpunched on the way.
    let mut at = head;
    let mut n: usize = 0;
    while at < tape.len() {
        let end = piece_end(&tape[..], at);
        if let Err(refusal) = judge_piece(&tape[at..end], usable) {
            rub_out(&mut tape[at..end]);
            firsts[n] = at;
            sizes[n] = end - at;
            numbers[n] = u32::from(refusal.cause);
            n += 1;
        }
        at = end;
    }
}
