// Where an appended block's rows go.
ghost use Rattle.std.specs.Prelude.{◌≡◌, ◌+◌, ◌≤◌, ◌<◌, ◌^◌, leb, length, drop};
ghost use Rattle.std.specs.List.{list_all};
ghost use Rattle.rows.specs.Answer.{told};
ghost use Rattle.rows.specs.Stages.{limit};
ghost use Rattle.images.specs.Images.{is_blank, blanks, sited};

use crate::Site;
use rows::{Cause, LIMIT, Refusal};

const NUL: u8 = 0;

const DEL: u8 = 255;

// Whether rows are all NUL or DEL.
fn are_blank(rows: &[u8]) -> bool
    ensures { result ≡ list_all is_blank rows.now }
{
    rows.iter().all(|row| *row == NUL || *row == DEL)
}

// Whether n rows from a row on are there, and NUL or DEL.
fn has_blanks(tape: &[u8], from: usize, n: usize) -> bool
    ensures { result ≡ leb n (blanks (drop from tape.now)) }
{
    let Some(behind) = tape.get(from..) else {
        return n == 0;
    };
    match behind.get(..n) {
        Some(rows) => are_blank(rows),
        None => false,
    }
}

// Where n rows go: into the NUL and DEL rows from a row on where they fit there, else after the last row.
pub(crate) fn find_site(
    tape: &[u8],
    from: usize,
    capacity: usize,
    n: usize,
) -> Result<Site, Refusal>
    requires { (length tape.now ≤ limit) × (n ≤ limit) }
    ensures { told result ≡ sited tape.now from capacity n }
{
    if has_blanks(tape, from, n) {
        return Ok(Site {
            at: from,
            rows: tape.len(),
        });
    }
    let rows = tape.len() + n;
    if LIMIT < rows {
        return Err(Cause::Length.at(LIMIT));
    }
    if capacity < rows {
        return Err(Cause::Room.at(rows));
    }
    Ok(Site {
        at: tape.len(),
        rows,
    })
}
