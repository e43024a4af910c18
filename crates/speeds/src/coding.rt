// From a speed to its code, and to the code that means it exactly.
ghost use Rattle.std.specs.Prelude.{◌≡◌};
ghost use Rattle.rows.specs.Answer.{told};
ghost use Rattle.speeds.specs.Coding.{code_for, exact_for};

use crate::{NOT_CODABLE, Speed, WRONG_LENGTH, magic, preferred, speed_of};
use rows::Refusal;

// 21, then 20.
pub fn code_of(digits: u32, speed: Speed) -> Result<u64, Refusal>
    ensures { told result ≡ code_for digits speed }
{
    match digits {
        2 => preferred::code_of(speed),
        3..=5 => match speed {
            Speed::Stop => Err(NOT_CODABLE),
            Speed::Rapid => Err(NOT_CODABLE),
            Speed::Rate(rate) => magic::code_of(digits as usize, rate),
        },
        _ => Err(WRONG_LENGTH),
    }
}

// The code that means the speed itself and not the speed rounded, if there is one.
pub fn exact_code(digits: u32, speed: Speed) -> Option<u64>
    ensures { result ≡ exact_for digits speed }
{
    let Ok(code) = code_of(digits, speed) else {
        return None;
    };
    let Ok(meant) = speed_of(digits, code) else {
        return None;
    };
    if meant == speed { Some(code) } else { None }
}
