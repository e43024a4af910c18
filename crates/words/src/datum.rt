// A word's data: the sign and the figures, and what they mean by the item's kind.
ghost use Rattle.std.specs.Prelude.{◌≡◌, ◌^◌, ◌<◌, length};
ghost use Rattle.rows.specs.Answer.{told, told_by};
ghost use Rattle.shorthand.specs.declared.Kind.{Kind};
ghost use Rattle.shorthand.specs.Layout.{sign_of};
ghost use Rattle.shorthand.specs.Facts.{Widths};
ghost use Rattle.words.specs.Figures.{signed};
ghost use Rattle.words.specs.Data.{signed_value, meant, data_at, word_at};
ghost use Rattle.words.specs.Front.{rows_at, read_told, shape_of};

use crate::figures::read_figures;
use crate::{Read, Shape, Value, Wanted, Word};
use rows::{Cause, Kept, Refusal};
use shorthand::{Item, Kind, Mark, Missing};

// What a kind allows, told apart once for a word.
impl From<Kind> for Shape {
    ghost from_gives = { λ k s. s ≡ shape_of k };

    fn from(kind: Kind) -> Shape {
        match kind {
            Kind::Plain(n) | Kind::Speed(n) => Shape {
                stands: false,
                misses: true,
                missing: Missing::Nothing,
                digits: n as usize,
            },
            Kind::Dimension(d) => {
                let stands = d.mark != Mark::Unmarked;
                Shape {
                    stands,
                    misses: !stands || d.bare,
                    missing: d.missing,
                    digits: d.before as usize + d.after as usize,
                }
            }
        }
    }
}

// The sign before a word's digits, or its absence: whether it is a minus.
#[tactic(auto, using(crate::proofs::Fetched::fetched))]
fn read_sign(tape: &[u8], shape: Shape, front: Option<Kept>) -> Result<Read<bool>, Refusal>
    ensures { (k : Kind) → shape ≡ shape_of k → told_by (read_told tape.now) result ≡ signed (length tape.now) (sign_of k) (rows_at tape.now front) }
{
    let Some(row) = front else {
        return Err(Cause::CutShort.at(tape.len()));
    };
    match row.character {
        '+' | '-' => {
            if shape.stands {
                let value = row.character == '-';
                let front = rows::next_kept(tape, row.after);
                Ok(Read { value, front })
            } else {
                Err(Cause::Sign.at(row.place))
            }
        }
        _ => {
            if shape.misses {
                Ok(Read {
                    value: false,
                    front,
                })
            } else {
                Err(Cause::Sign.at(row.place))
            }
        }
    }
}

// A magnitude with its sign; minus zero is zero.
fn with_sign(minus: bool, m: u64) -> i64
    requires { m < 10 ^ 18 }
    ensures { result ≡ signed_value minus m }
{
    let v = m as i64;
    if minus { -v } else { v }
}

// What the figures of a word mean that begins at a row.
fn mean(at: usize, kind: Kind, minus: bool, m: u64) -> Result<Value, Refusal>
    requires { m < 10 ^ 18 }
    ensures { told result ≡ meant at kind minus m }
{
    match kind {
        Kind::Plain(_) => Ok(Value::Number(m)),
        Kind::Speed(k) => match speeds::speed_of(k as u32, m) {
            Ok(speed) => Ok(Value::Speed(speed)),
            Err(r) => Err(r.cause.at(at)),
        },
        Kind::Dimension(_) => Ok(Value::Dimension(with_sign(minus, m))),
    }
}

// The data of a word that begins at a row: the sign, and then the digits.
#[tactic(auto, unfolding(crate::specs::Data::data_at))]
fn read_data(
    tape: &[u8],
    at: usize,
    kind: Kind,
    front: Option<Kept>,
) -> Result<Read<Value>, Refusal>
    requires { Widths kind }
    ensures { told_by (read_told tape.now) result ≡ data_at (length tape.now) at kind (rows_at tape.now front) }
{
    let shape = Shape::from(kind);
    let sign = read_sign(tape, shape, front)?;
    let figures = read_figures(
        tape,
        sign.front,
        Wanted::Digits,
        shape.missing,
        shape.digits,
    )?;
    let value = mean(at, kind, sign.value, figures.value)?;
    let front = figures.front;
    Ok(Read { value, front })
}

// The word of an item that begins at a place, its data at the front.
pub fn read_word(
    tape: &[u8],
    item: Item,
    place: usize,
    front: Option<Kept>,
) -> Result<Read<Word>, Refusal>
    requires { Widths item.kind }
    ensures { told_by (read_told tape.now) result ≡ word_at (length tape.now) item place (rows_at tape.now front) }
{
    let data = read_data(tape, place, item.kind, front)?;
    let value = Word {
        letter: item.letter,
        value: data.value,
    };
    let front = data.front;
    Ok(Read { value, front })
}
