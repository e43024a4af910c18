// Cases of the crate corrections.
ghost use Rattle.std.specs.Prelude.{◌≤◌, length};

use crate::answers::{Output, put, put_all, put_decimal, put_refusal};
use crate::asked::{behind_profile, number, part, rest, rows_of, terms_of};
use crate::block_cases::put_part;
use crate::index_cases::{marked_of, numbers_of};
use corrections::{Named, Tape};
use rows::Refusal;

// Whether a bar with a space on either side stands at the front of a text.
fn is_between(text: &[u8]) -> bool {
    matches!(text, [b' ', b'|', b' ', ..])
}

// Where the first such bar stands, by the space before it; the text's length where there is none.
fn bar_in(tapes: &[u8]) -> usize
    ensures { result ≤ length tapes.now }
{
    for i in 0..tapes.len() {
        if is_between(&tapes[i..]) {
            return i;
        }
    }
    tapes.len()
}

// The correction of two spelt tapes: what stands before the bar.
fn correction_in(tapes: &[u8]) -> &[u8] {
    let bar = bar_in(tapes);
    &tapes[0..bar]
}

// The master: what stands behind it.
fn master_in(tapes: &[u8]) -> &[u8] {
    let bar = bar_in(tapes);
    if tapes.len() - bar < 3 {
        return &tapes[bar..];
    }
    &tapes[bar + 3..]
}

// The letter of a tape.
fn letter_of(tape: Tape) -> u8 {
    match tape {
        Tape::Correction => b'C',
        Tape::Master => b'M',
    }
}

// Number, place and, where there is one, the entry: its tape's letter and its block.
fn put_corrected(out: &mut Output, at: usize, answer: Result<Named, Refusal>) -> usize {
    match answer {
        Ok(named) => {
            let next = put_all(out, at, b" 0 0 ");
            let behind = put(out, next, letter_of(named.tape));
            put_decimal(out, behind, named.block as u64)
        }
        Err(r) => put_refusal(out, at, r),
    }
}

// The rows of a number on whichever of two tapes holds them.
fn rows_held(asked: &[u8], correction: &[u8], master: &[u8], out: &mut Output, at: usize) -> usize {
    let rows = corrections::corrected_rows(
        &terms_of(asked),
        correction,
        master,
        marked_of(behind_profile(asked)),
    );
    put_part(out, at, rows)
}

// CP: the rows of a number, on the correction or else on the master.
pub fn part_of(
    asked: &[u8],
    tape: &mut [u8],
    buffer: &mut [u8],
    out: &mut Output,
    at: usize,
) -> usize {
    let tapes = rest(behind_profile(asked));
    let n = rows_of(correction_in(tapes), tape);
    let m = rows_of(master_in(tapes), buffer);
    rows_held(asked, &tape[0..n], &buffer[0..m], out, at)
}

// Entry n of the corrected listing of two tapes.
fn entry_under(asked: &[u8], correction: &[u8], master: &[u8]) -> Result<Named, Refusal> {
    corrections::corrected_entry(
        &terms_of(asked),
        correction,
        master,
        number(behind_profile(asked)) as usize,
    )
}

// CE: entry n of the corrected listing.
pub fn entry(
    asked: &[u8],
    tape: &mut [u8],
    buffer: &mut [u8],
    out: &mut Output,
    at: usize,
) -> usize {
    let tapes = rest(behind_profile(asked));
    let n = rows_of(correction_in(tapes), tape);
    let m = rows_of(master_in(tapes), buffer);
    put_corrected(out, at, entry_under(asked, &tape[0..n], &buffer[0..m]))
}

// CI: entry n of the corrected listing, by the numbers of both tapes.
pub fn indexed(asked: &[u8], out: &mut Output, at: usize) -> usize {
    let lists = rest(asked);
    let mut correction = [0u64; 100];
    let mut master = [0u64; 100];
    let n = numbers_of(part(lists), &mut correction);
    let m = numbers_of(part(rest(lists)), &mut master);
    let answer = corrections::listed::indexed_entry(
        &correction[0..n],
        &master[0..m],
        number(asked) as usize,
    );
    put_corrected(out, at, answer)
}
