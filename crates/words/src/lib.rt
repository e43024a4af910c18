// Words: what stands behind an address, the sign and the digits, and what they mean by the item's kind.
#![tactic(auto)]

ghost use Rattle.std.specs.Prelude.{◌^◌, ◌<◌};

pub mod datum;
pub mod figures;

use rows::Kept;
use shorthand::Missing;
use speeds::Speed;

// What a word says: a plain number, a dimension in the last decimal place, or a speed.
#[derive(Clone, Copy)]
pub enum Value {
    Number(u64),
    Dimension(i64),
    Speed(Speed),
}

#[derive(Clone, Copy)]
pub struct Word {
    pub letter: u8,
    pub value: Value,
}

// What a kind allows behind the address: a sign, none, missing zeros; and how many digits there are in full.
#[derive(Clone, Copy)]
pub struct Shape {
    pub stands: bool,
    pub misses: bool,
    pub missing: Missing,
    pub digits: usize,
}

// What has to stand at the front of the rows: "%" and an end, a block's start up to the digits of its number, a block's end, the digits of a word.
#[derive(Clone, Copy)]
pub enum Wanted {
    Head,
    Start,
    End,
    Digits,
}

// A value that a parser took, and the next kept row.
#[derive(Clone, Copy)]
pub struct Read<T> {
    pub value: T,
    pub front: Option<Kept>,
}

// A number, and how many digits it had.
#[derive(Clone, Copy)]
pub struct Digits {
    pub number: u64,
    pub count: usize,
    ghost small: { number < 10 ^ count },
}

// Digits one right behind another, with those before, and the place behind them.
#[derive(Clone, Copy)]
pub struct Stretch {
    pub digits: Digits,
    pub at: usize,
}
