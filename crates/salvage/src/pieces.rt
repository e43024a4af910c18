// The pieces of a tape: where one ends, and whether it would be accepted behind the head, judged where it stands.
ghost use Rattle.std.specs.Prelude.{◌≡◌, ◌==◌, ◌+◌, ◌≤◌, length, position};
ghost use Rattle.rows.specs.Answer.{told, void, taken};
ghost use Rattle.rows.specs.Stages.{limit};
ghost use Rattle.reading.specs.Answers.{read};
ghost use Rattle.reading.specs.Survey.{alone};
ghost use Rattle.salvage.specs.Pieces.{head_of};
ghost use Rattle.salvage.specs.Saving.{saved_of};
ghost use Rattle.salvage.specs.Turns.{piece_at};

use reading::walk::{survey_blocks, survey_tape};
use rows::Refusal;
use shorthand::Usable;

// The row of LF.
const LF: u8 = 10;

fn lf_in(rows: &[u8]) -> Option<usize>
    ensures { result ≡ position (λ x. x == 10) rows.now }
{
    rows.iter().position(|row| *row == LF)
}

// Where the piece that begins at a row ends: behind the first LF row, or where the tape does.
pub(crate) fn piece_end(tape: &[u8], from: usize) -> usize
    requires { from ≤ length tape.now }
    ensures { result ≡ from + length (piece_at tape.now from) }
{
    match lf_in(&tape[from..]) {
        Some(k) => from + k + 1,
        None => tape.len(),
    }
}

// All four stages of the head.
pub(crate) fn judge_head(head: &[u8], usable: Usable) -> Result<(), Refusal>
    ensures { told result ≡ void (read usable.format head.now) }
{
    survey_tape(head, usable, 0)?;
    Ok(())
}

// Whether a piece would be accepted behind a head. It is read where it stands.
pub(crate) fn judge_piece(piece: &[u8], usable: Usable) -> Result<(), Refusal>
    ensures { told result ≡ void (alone usable.format piece.now) }
{
    rows::check(piece)?;
    survey_blocks(piece, usable, 0, 0, rows::next_kept(piece, 0))?;
    Ok(())
}

// How many pieces behind an accepted head are lost.
pub(crate) fn count_losses(tape: &[u8], usable: Usable, head: usize) -> usize
    requires tape_len_bound { (length tape.now ≤ limit) × (head ≡ length (head_of tape.now)) × (taken tt ≡ void (read usable.format (head_of tape.now))) }
    ensures { result ≡ length (saved_of usable.format tape.now).lost }
{
    // A loop over places, as in `save_pieces`: one law (`Turns`) serves both.
    let mut lost: usize = 0;
    let mut at = head;
    while at < tape.len() {
        let end = piece_end(tape, at);
        if judge_piece(&tape[at..end], usable).is_err() {
            lost += 1;
        }
        at = end;
    }
    lost
}
