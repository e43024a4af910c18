// The form of the general shorthand, walked place by place (document 02, 2/12).
ghost use Rattle.std.specs.Prelude.{◌≡◌, ◌-◌, length, take};
ghost use Rattle.rows.specs.Answer.{told_by};
ghost use Rattle.rows.specs.Row.{among};
ghost use Rattle.shorthand.specs.declared.Edition.{Edition};
ghost use Rattle.profile.specs.Agreement.{only_later, said_in};
ghost use Rattle.profile.specs.Form.{form_of};
ghost use Rattle.profile.specs.Answers.{filled};
ghost use Rattle.profile.specs.Front.{slot_at};

use crate::General;
use rows::{Cause, Refusal};
use shorthand::Edition;

// Whether the byte may stand at place k.
fn byte_fits(edition: Edition, k: usize, b: u8) -> bool
    ensures { result ≡ among b (slot_at edition k).bytes }
{
    match k {
        3 => matches!(b, b'R' | b'D'),
        4 | 8 => b == b' ',
        5..=7 => matches!(b, b'0'..=b'9'),
        _ => match edition {
            Edition::Iso1057 => match k {
                0 => b == b'I',
                1 => matches!(b, b'P' | b'L'),
                2 => matches!(b, b'M' | b'I'),
                _ => false,
            },
            Edition::Iso2539 => match k {
                0 => matches!(b, b'P' | b'L'),
                1 => matches!(b, b'A' | b'T' | b'S'),
                2 => b == b'M',
                9 => matches!(b, b'A' | b'I' | b'B'),
                _ => false,
            },
        },
    }
}

// R or D and the two spaces may be left out, in either edition.
fn must_stand(k: usize) -> bool
    ensures { (e : Edition) → result ≡ (slot_at e k).must }
{
    !matches!(k, 3 | 4 | 8)
}

// The byte at each place of the form, 0 where none stands: each byte stands at the first place that it may stand at.
pub(crate) fn fill_form(edition: Edition, text: &[u8]) -> Result<[u8; 10], Refusal>
    ensures { told_by (take (length (form_of edition))) result ≡ filled (form_of edition) 0 text.now }
{
    let places: usize = match edition {
        Edition::Iso1057 => 9,
        Edition::Iso2539 => 10,
    };
    let mut bytes = [0u8; 10];
    let mut at: usize = 0;
    for k in 0..places {
        if at < text.len() && byte_fits(edition, k, text[at]) {
            bytes[k] = text[at];
            at += 1;
        } else if must_stand(k) {
            return Err(Cause::ProfileForm.at(at));
        }
    }
    // Behind the last place nothing may stand.
    if at < text.len() {
        return Err(Cause::ProfileForm.at(at));
    }
    Ok(bytes)
}

// A digit's value; a byte below 0, which no place for a digit has, counts as 0.
fn value_of(b: u8) -> u8
    ensures { result ≡ b - 48 }
{
    b.saturating_sub(b'0')
}

// 1057 has neither A, T or S nor A, I or B.
fn only_later(edition: Edition, b: u8) -> u8
    ensures { result ≡ only_later edition b }
{
    match edition {
        Edition::Iso1057 => 0,
        Edition::Iso2539 => b,
    }
}

// What the bytes at the places say.
pub(crate) fn said_in(edition: Edition, bytes: [u8; 10]) -> General
    ensures { result ≡ said_in edition bytes }
{
    General {
        way: only_later(edition, bytes[1]),
        rotary: bytes[3],
        first: value_of(bytes[5]),
        second: value_of(bytes[6]),
        third: value_of(bytes[7]),
        moves: only_later(edition, bytes[9]),
    }
}
