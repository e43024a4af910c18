// Parts: what a block is made of, and the head before it: an end, a start, and how an item stands.
#![tactic(auto)]

ghost use Rattle.std.specs.Prelude.{◌≤◌};

pub mod ends;
pub mod items;
pub mod starts;

use rows::Kept;

// An end: the place of its LF, and the place after it.
#[derive(Clone, Copy)]
pub struct End {
    pub lf: usize,
    pub after: usize,
}

// What a block begins with. The number of one that has none is 0.
// Stays so: numbered stands beside sequence: what a record without number has as its number is in punching's promises
#[derive(Clone, Copy)]
pub struct Begun {
    pub skip: bool,
    pub alignment: bool,
    pub numbered: bool,
    pub sequence: u64,
}

// How an item stands: it can't be reached, its word is left out, or its word begins at a place, with its data at the front.
#[derive(Clone, Copy)]
pub enum Reach {
    Stops,
    Out(Option<Kept>),
    At(usize, Option<Kept>),
}

// What a step has to know of a Format: whether a block may have no number, N's digits, tabs or none, whether words have addresses, and how many items there are.
#[derive(Clone, Copy)]
pub struct Rules {
    pub unnumbered: bool,
    pub digits: usize,
    pub dots: bool,
    pub addresses: bool,
    pub items: usize,
}

// What guides a walk over blocks: the rules of a Format, and for every character the place of the item with that letter, 22 where there is none.
#[derive(Drop)]
pub struct Guide {
    pub rules: Rules,
    pub leads: [u8; 256],
    ghost short: { rules.digits ≤ 18 },
}
