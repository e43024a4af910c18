// Coded speeds, by preferred numbers and by magic three: code to speed, speed to code, and the code that means a speed exactly.
#![tactic(auto)]

ghost use Rattle.std.specs.Prelude.{◌≡◌, ◌^◌, ◌≤◌};
ghost use Rattle.rows.specs.Answer.{told};
ghost use Rattle.speeds.specs.Meaning.{speed_for};

use rows::{Cause, Refusal};

mod coding;
mod magic;
mod preferred;

pub use coding::{code_of, exact_code};

// A speed: stop, rapid, or a rate in ten-millionths.
#[derive(Clone, Copy, Debug, PartialEq, Eq)]
pub enum Speed {
    Stop,
    Rapid,
    Rate(u64),
}

// The refusals of a number that is handed over.
pub(crate) const NOT_CODABLE: Refusal = Refusal {
    cause: Cause::Uncodable,
    place: 0,
};

pub(crate) const WRONG_LENGTH: Refusal = Refusal {
    cause: Cause::CodeLength,
    place: 0,
};

// The powers of ten, up to one that no number of the trade reaches.
pub(crate) const TENS: [u64; 19] = [
    1,
    10,
    100,
    1_000,
    10_000,
    100_000,
    1_000_000,
    10_000_000,
    100_000_000,
    1_000_000_000,
    10_000_000_000,
    100_000_000_000,
    1_000_000_000_000,
    10_000_000_000_000,
    100_000_000_000_000,
    1_000_000_000_000_000,
    10_000_000_000_000_000,
    100_000_000_000_000_000,
    1_000_000_000_000_000_000,
];

pub fn ten(n: usize) -> u64
    requires { n ≤ 18 }
    ensures { result ≡ 10 ^ n }
{
    TENS[n]
}

// 21, then 13, and else the speed that the code means.
pub fn speed_of(digits: u32, code: u64) -> Result<Speed, Refusal>
    ensures { told result ≡ speed_for digits code }
{
    match digits {
        2 => preferred::speed_of(code),
        3..=5 => magic::speed_of(digits as usize, code),
        _ => Err(WRONG_LENGTH),
    }
}
