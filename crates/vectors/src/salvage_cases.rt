// Cases of the crate salvage.
use crate::answers::{Output, put_counted, put_rows};
use crate::asked::{behind_profile, fill, number, part, rest, rows_of, terms_of};
use crate::index_cases::{behind_comma, places_in, put_list, put_rows_listed};
use rows::Refusal;

// Refusals' numbers.
fn put_refusals(out: &mut Output, start: usize, numbers: &[u32]) -> usize {
    put_list(out, start, numbers, |n| Some(n as u64))
}

// A tape saved under the edition, the shorthand and the profile that are asked, with lists whose old content is counted up.
fn save_under(
    asked: &[u8],
    tape: &mut [u8],
    firsts: &mut [usize],
    sizes: &mut [usize],
    numbers: &mut [u32],
    first: u64,
) -> Result<usize, Refusal> {
    fill(firsts, first, 1);
    fill(sizes, first, 1);
    fill(numbers, first, 1);
    salvage::salvage(&terms_of(asked), tape, firsts, sizes, numbers)
}

// The same, and what is handed back and left.
fn save_into(
    asked: &[u8],
    tape: &mut [u8],
    firsts: &mut [usize],
    sizes: &mut [usize],
    numbers: &mut [u32],
    first: u64,
    out: &mut Output,
    at: usize,
) -> usize {
    let answer = save_under(asked, tape, firsts, sizes, numbers, first);
    let lost = put_counted(out, at, answer);
    let rows = put_rows(out, lost, tape);
    let lists = put_rows_listed(out, rows, firsts);
    let next = put_rows_listed(out, lists, sizes);
    put_refusals(out, next, numbers)
}

// The same, with lists of as many places as are asked.
fn save_in(asked: &[u8], tape: &mut [u8], out: &mut Output, at: usize) -> usize {
    let wanted = behind_profile(asked);
    let places = part(wanted);
    let others = behind_comma(places);
    let mut firsts = [0usize; 100];
    let mut sizes = [0usize; 100];
    let mut numbers = [0u32; 100];
    let a = places_in(places);
    let b = places_in(others);
    let c = places_in(behind_comma(others));
    save_into(
        asked,
        tape,
        &mut firsts[0..a],
        &mut sizes[0..b],
        &mut numbers[0..c],
        number(rest(wanted)),
        out,
        at,
    )
}

// SV: what can be saved of a tape.
pub fn save(asked: &[u8], tape: &mut [u8], out: &mut Output, at: usize) -> usize {
    let first = rest(behind_profile(asked));
    let n = rows_of(rest(first), tape);
    save_in(asked, &mut tape[0..n], out, at)
}
