// An end, and the head of a tape.
ghost use Rattle.std.specs.Prelude.{◌≡◌, length};
ghost use Rattle.rows.specs.Answer.{told_by};
ghost use Rattle.words.specs.declared.Wanted.{Wanted};
ghost use Rattle.words.specs.Front.{rows_at, read_told};
ghost use Rattle.parts.specs.Ends.{after_cr, ended, head_at, entered, close_at};
ghost use Rattle.parts.specs.Front.{end_told};

use crate::End;
use rows::{Kept, Refusal};
use words::figures::refuse_front;
use words::{Read, Wanted};

// The end that a kept LF makes.
impl From<Kept> for End {
    ghost from_gives = { λ row end. (end.lf ≡ row.place) × (end.after ≡ row.after) };

    fn from(row: Kept) -> End {
        End {
            lf: row.place,
            after: row.after,
        }
    }
}

// The LF that must stand behind a CR.
fn behind_cr(tape: &[u8], cr: usize, front: Option<Kept>, wanted: Wanted) -> Result<End, Refusal>
    ensures { told_by (end_told tape.now) result ≡ after_cr (length tape.now) wanted (record { place = cr; char = 13 }) (rows_at tape.now front) }
{
    match front {
        Some(row) if row.character == '\n' => Ok(End::from(row)),
        Some(_) => Err(wanted.wrong().at(cr)),
        None => Err(refuse_front(tape, front, wanted)),
    }
}

// An end, the head's or a block's: LF, or CR directly before LF.
#[tactic(auto, using(words::proofs::Fetched::fetched))]
fn find_lf(tape: &[u8], front: Option<Kept>, wanted: Wanted) -> Result<End, Refusal>
    ensures { told_by (end_told tape.now) result ≡ ended (length tape.now) wanted (rows_at tape.now front) }
{
    let Some(row) = front else {
        return Err(refuse_front(tape, front, wanted));
    };
    match row.character {
        '\n' => Ok(End::from(row)),
        '\r' => behind_cr(tape, row.place, rows::next_kept(tape, row.after), wanted),
        _ => Err(refuse_front(tape, front, wanted)),
    }
}

// The end of a block; one that is empty is refused where it ends.
pub fn find_end(tape: &[u8], empty: bool, front: Option<Kept>) -> Result<End, Refusal>
    ensures { told_by (end_told tape.now) result ≡ close_at (length tape.now) empty (rows_at tape.now front) }
{
    let end = find_lf(tape, front, Wanted::End)?;
    if empty {
        return Err(Wanted::Start.wrong().at(end.lf));
    }
    Ok(end)
}

// "%" and an end.
#[tactic(auto, using(words::proofs::Fetched::fetched), unfolding(crate::specs::Ends::head_at))]
fn read_head(tape: &[u8], front: Option<Kept>) -> Result<Read<usize>, Refusal>
    ensures { told_by (read_told tape.now) result ≡ head_at (length tape.now) (rows_at tape.now front) }
{
    match front {
        Some(row) if row.character == '%' => {
            let end = find_lf(tape, rows::next_kept(tape, row.after), Wanted::Head)?;
            let front = rows::next_kept(tape, end.after);
            Ok(Read {
                value: end.lf,
                front,
            })
        }
        _ => Err(refuse_front(tape, front, Wanted::Head)),
    }
}

// The first three stages and the head: where the blocks begin.
#[tactic(auto, unfolding(crate::specs::Ends::entered))]
pub fn enter_tape(tape: &[u8]) -> Result<Read<usize>, Refusal>
    ensures { told_by (read_told tape.now) result ≡ entered tape.now }
{
    rows::check(tape)?;
    read_head(tape, rows::next_kept(tape, 0))
}
