// Cases of the crate rows, and of the head.
use crate::answers::{Output, put, put_all, put_counted, put_decimal, put_number, put_outcome};
use crate::asked::{byte, number, rows_of};

// E: the table's entry of a row, and its holes by the count.
pub fn entry(asked: &[u8], out: &mut Output, at: usize) -> usize {
    let row = byte(asked);
    let next = put_number(out, at, rows::entry_of(row) as u64);
    if rows::has_even_holes(row) {
        return put_all(out, next, b" even");
    }
    put_all(out, next, b" odd")
}

// R: the first three stages.
pub fn stages(asked: &[u8], tape: &mut [u8], out: &mut Output, at: usize) -> usize {
    let n = rows_of(asked, tape);
    put_outcome(out, at, &rows::check(&tape[0..n]))
}

// M: the first three stages of so many NUL rows.
pub fn many(asked: &[u8], blank: &[u8], out: &mut Output, at: usize) -> usize {
    let n = number(asked);
    if n < blank.len() as u64 {
        return put_outcome(out, at, &rows::check(&blank[0..n as usize]));
    }
    put_outcome(out, at, &rows::check(blank))
}

fn put_kept(out: &mut Output, start: usize, tape: &[u8]) -> usize {
    let mut at = start;
    let mut from: usize = 0;
    // No `for`: each kept row says where the next is looked for.
    while from < tape.len() {
        let Some(kept) = rows::next_kept(tape, from) else {
            return at;
        };
        if kept.after <= from {
            return at;
        }
        let next = put_number(out, at, kept.place as u64);
        let colon = put(out, next, b':');
        at = put_decimal(out, colon, kept.character as u64);
        from = kept.after;
    }
    at
}

// K: the kept rows.
pub fn kept(asked: &[u8], tape: &mut [u8], out: &mut Output, at: usize) -> usize {
    let n = rows_of(asked, tape);
    put_kept(out, at, &tape[0..n])
}

// T: the first three stages and the head.
pub fn head(asked: &[u8], tape: &mut [u8], out: &mut Output, at: usize) -> usize {
    let n = rows_of(asked, tape);
    put_counted(
        out,
        at,
        parts::ends::enter_tape(&tape[0..n]).map(|end| end.value),
    )
}
