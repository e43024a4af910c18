// Magic three: codes of three to five digits, each a rate.
ghost use Rattle.std.specs.Prelude.{◌≡◌, ◌^◌, ◌≤◌, ◌<◌};
ghost use Rattle.speeds.specs.declared.Speed.TheVariants.{Rate};
ghost use Rattle.speeds.specs.Meaning.{speed_for};
ghost use Rattle.speeds.specs.Rounding.{past, rounded};
ghost use Rattle.rows.specs.Answer.{told};
ghost use Rattle.speeds.specs.Coding.{code_for};

use crate::{NOT_CODABLE, Speed, TENS, WRONG_LENGTH, ten};
use rows::{Cause, Refusal};

// The least and the most that a rounded rate may be, but for zero.
const LEAST: u64 = 1_000;

const MOST: u64 = 9_999_999_999_999;

const SECOND_ZERO: Refusal = Refusal {
    cause: Cause::SecondZero,
    place: 0,
};

// How many digits of v stand past the first s.
fn count_past(s: usize, v: u64) -> usize
    requires { v < 10 ^ 13 }
    ensures { result ≡ past s v }
{
    match v.checked_ilog10() {
        None => 0,
        Some(n) => (n as usize + 1).saturating_sub(s),
    }
}

// v to s significant digits, a half upwards.
fn round_to(s: usize, v: u64) -> u64
    requires { (s ≤ 13) × (v < 10 ^ 13) }
    ensures { result ≡ rounded s v }
{
    let unit = ten(count_past(s, v));
    let rest = v % unit;
    if 2 * rest < unit {
        v - rest
    } else {
        v - rest + unit
    }
}

// More than k digits, then 13, and else the rate that the code means.
pub(crate) fn speed_of(k: usize, code: u64) -> Result<Speed, Refusal>
    requires { (3 ≤ k) × (k ≤ 5) }
    ensures { told result ≡ speed_for k code }
{
    // laid out once for all four powers
    let tens = TENS;
    let limit = tens[k];
    let unit = tens[k - 1];
    let least = tens[k - 2];
    let others = code % unit;
    if code == 0 {
        Ok(Speed::Rate(0))
    } else if limit <= code {
        Err(WRONG_LENGTH)
    } else if others < least {
        Err(SECOND_ZERO)
    } else {
        let first = (code / unit) as usize;
        let units = others * tens[first + 5 - k];
        Ok(Speed::Rate(units))
    }
}

// The rate is rounded, and only then is the first digit found.
pub(crate) fn code_of(k: usize, rate: u64) -> Result<u64, Refusal>
    requires { (3 ≤ k) × (k ≤ 5) }
    ensures { told result ≡ code_for k (Rate rate) }
{
    if rate == 0 {
        return Ok(0);
    }
    // Rounding brings no rate below a power of ten that it has reached: one this high is refused before any sum.
    if MOST < rate {
        return Err(NOT_CODABLE);
    }
    let rounded = round_to(k - 1, rate);
    match rounded {
        LEAST..=MOST => {}
        _ => {
            return Err(NOT_CODABLE);
        }
    }
    let first = count_past(4, rounded);
    let high = first as u64 * ten(k - 1);
    let low = rounded / ten(first + 5 - k);
    let code = high + low;
    Ok(code)
}
