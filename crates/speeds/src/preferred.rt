// Preferred numbers: the speeds of two-digit codes, and the code of the nearest rate.
ghost use Rattle.std.specs.Prelude.{◌≡◌, ◌≤◌};
ghost use Rattle.speeds.specs.Preferred.{rates, last_code, rate_of, nearest_code, most_rate};
ghost use Rattle.speeds.specs.Meaning.{speed_for};
ghost use Rattle.rows.specs.Answer.{told};
ghost use Rattle.speeds.specs.Coding.{code_for};

use crate::{NOT_CODABLE, Speed, WRONG_LENGTH};
use rows::Refusal;

// The rates of the codes 01 to 98 in ten-millionths.
const RATES: [u64; 98] = [
    11_200_000,
    12_500_000,
    14_000_000,
    16_000_000,
    18_000_000,
    20_000_000,
    22_400_000,
    25_000_000,
    28_000_000,
    31_500_000,
    35_500_000,
    40_000_000,
    45_000_000,
    50_000_000,
    56_000_000,
    63_000_000,
    71_000_000,
    80_000_000,
    90_000_000,
    100_000_000,
    112_000_000,
    125_000_000,
    140_000_000,
    160_000_000,
    180_000_000,
    200_000_000,
    224_000_000,
    250_000_000,
    280_000_000,
    315_000_000,
    355_000_000,
    400_000_000,
    450_000_000,
    500_000_000,
    560_000_000,
    630_000_000,
    710_000_000,
    800_000_000,
    900_000_000,
    1_000_000_000,
    1_120_000_000,
    1_250_000_000,
    1_400_000_000,
    1_600_000_000,
    1_800_000_000,
    2_000_000_000,
    2_240_000_000,
    2_500_000_000,
    2_800_000_000,
    3_150_000_000,
    3_550_000_000,
    4_000_000_000,
    4_500_000_000,
    5_000_000_000,
    5_600_000_000,
    6_300_000_000,
    7_100_000_000,
    8_000_000_000,
    9_000_000_000,
    10_000_000_000,
    11_200_000_000,
    12_500_000_000,
    14_000_000_000,
    16_000_000_000,
    18_000_000_000,
    20_000_000_000,
    22_400_000_000,
    25_000_000_000,
    28_000_000_000,
    31_500_000_000,
    35_500_000_000,
    40_000_000_000,
    45_000_000_000,
    50_000_000_000,
    56_000_000_000,
    63_000_000_000,
    71_000_000_000,
    80_000_000_000,
    90_000_000_000,
    100_000_000_000,
    112_000_000_000,
    125_000_000_000,
    140_000_000_000,
    160_000_000_000,
    180_000_000_000,
    200_000_000_000,
    224_000_000_000,
    250_000_000_000,
    280_000_000_000,
    315_000_000_000,
    355_000_000_000,
    400_000_000_000,
    450_000_000_000,
    500_000_000_000,
    560_000_000_000,
    630_000_000_000,
    710_000_000_000,
    800_000_000_000,
];

// The table, laid out once for all that is looked up.
fn lay_out() -> [u64; 98]
    ensures { result ≡ rates }
{
    RATES
}

// The rate of a code from 1 to 98.
fn rate_of(code: usize) -> u64
    requires { (1 ≤ code) × (code ≤ last_code) }
    ensures { result ≡ rate_of code }
{
    let rates = lay_out();
    rates[code - 1]
}

// The code of the rate that is nearest, the larger of two equally near.
fn nearest_code(rate: u64) -> usize
    requires { rate ≤ most_rate }
    ensures { result ≡ nearest_code rate }
{
    let rates = lay_out();
    for at in 0..97 {
        if 2 * rate < rates[at] + rates[at + 1] {
            return at + 1;
        }
    }
    98
}

// 00 is stop, 99 rapid, every other code of two digits a rate.
pub(crate) fn speed_of(code: u64) -> Result<Speed, Refusal>
    ensures { told result ≡ speed_for 2 code }
{
    match code {
        0 => Ok(Speed::Stop),
        1..=98 => Ok(Speed::Rate(rate_of(code as usize))),
        99 => Ok(Speed::Rapid),
        _ => Err(WRONG_LENGTH),
    }
}

// The nearest rate's code; a rate under the table's first or over its last is refused.
pub(crate) fn code_of(speed: Speed) -> Result<u64, Refusal>
    ensures { told result ≡ code_for 2 speed }
{
    match speed {
        Speed::Stop => Ok(0),
        Speed::Rapid => Ok(99),
        Speed::Rate(rate) => {
            if rate < rate_of(1) {
                return Err(NOT_CODABLE);
            }
            if rate_of(98) < rate {
                return Err(NOT_CODABLE);
            }
            Ok(nearest_code(rate) as u64)
        }
    }
}
