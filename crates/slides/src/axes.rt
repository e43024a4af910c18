// The axes: their letters in dimension order, and whether all of them can be followed.
ghost use Rattle.std.specs.Prelude.{◌≡◌};
ghost use Rattle.rows.specs.Answer.{told};
ghost use Rattle.slides.specs.Axes.{axis_of, axis_named, far, unsound, sound};

use crate::Travel;
use rows::{Cause, Refusal};

// X Y Z U V W P Q R A B C D E; I, J and K are not positions.
pub const AXES: [u8; 14] = [88, 89, 90, 85, 86, 87, 80, 81, 82, 65, 66, 67, 68, 69];

// One million million million.
const FARTHEST: i64 = 1000000000000000000;

// The axis of a letter, or 14.
pub fn axis_of(letter: u8) -> usize
    ensures { result ≡ axis_of letter }
{
    for (a, axis) in AXES.iter().enumerate() {
        if *axis == letter {
            return a;
        }
    }
    14
}

// The axis of a letter, if it has one.
pub fn axis_named(letter: u8) -> Option<usize>
    ensures { result ≡ axis_named letter }
{
    let a = axis_of(letter);
    if a < 14 { Some(a) } else { None }
}

// Beyond one million million million either way.
fn is_far(z: i64) -> bool
    ensures { result ≡ far z }
{
    z < -FARTHEST || FARTHEST < z
}

fn is_unsound(low: i64, high: i64, place: i64) -> bool
    ensures { result ≡ unsound low high place }
{
    (high < low) | is_far(low) | is_far(high) | is_far(place)
}

// Whether every axis can be followed, used or not.
pub fn check_travel(travel: Travel, places: [i64; 14]) -> Result<(), Refusal>
    ensures { told result ≡ sound travel places }
{
    for (a, letter) in AXES.iter().enumerate() {
        if is_unsound(travel.low[a], travel.high[a], places[a]) {
            return Err(Cause::Travel.at(usize::from(*letter)));
        }
    }
    Ok(())
}
