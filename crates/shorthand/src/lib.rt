// The shorthand: an edition and a detailed shorthand, read once into a Format held by value.
#![tactic(auto)]

ghost use Rattle.std.specs.Prelude.{◌≡◌};
ghost use Rattle.rows.specs.Answer.{told, told_by};
ghost use Rattle.shorthand.specs.Edition.{later};
ghost use Rattle.shorthand.specs.Facts.{Facts};
ghost use Rattle.shorthand.specs.OneFacts.{facts-prop};
ghost use Rattle.shorthand.specs.Parse.{edition_by, parsed};

mod formats;
mod items;
mod kinds;
mod orders;
mod pieces;

use formats::read_items;
use items::sequence_at;
use rows::{Cause, Refusal};

// The editions: ISO 1057, and ISO 2539, which holds whatever is in form at all.
#[derive(Clone, Copy, PartialEq, Eq)]
pub enum Edition {
    Iso1057,
    Iso2539,
}

// A dimension's mark: none, "+" or "D".
#[derive(Clone, Copy, PartialEq, Eq)]
pub enum Mark {
    Unmarked,
    Plus,
    Delta,
}

// Which zeros of a dimension may be missing.
#[derive(Clone, Copy)]
pub enum Missing {
    Nothing,
    Leading,
    Trailing,
}

// How a dimension's figures stand: digits before and after the implied point, and whether a missing sign means plus.
#[derive(Clone, Copy)]
pub struct Figures {
    pub mark: Mark,
    pub before: u8,
    pub after: u8,
    pub missing: Missing,
    pub bare: bool,
}

// What an item's words are, with their number of digits.
#[derive(Clone, Copy)]
pub enum Kind {
    Plain(u8),
    Speed(u8),
    Dimension(Figures),
}

#[derive(Clone, Copy)]
pub struct Item {
    pub letter: u8,
    pub kind: Kind,
}

// Whether a block may have no number, N's digits, dots or none, whether words have addresses, and the items.
// The first `count` of 22 places hold them, and no list does: there is no heap, and a Format is copied by value.
#[derive(Clone, Copy)]
pub struct Format {
    pub unnumbered: bool,
    pub sequence: u8,
    pub dots: bool,
    pub addresses: bool,
    pub count: usize,
    pub items: [Item; 22],
}

// A Format that a shorthand gave, with the facts that reading and punching rest on.
#[derive(Clone, Copy)]
pub struct Usable {
    pub format: Format,
    ghost facts: { Facts format } by { facts-prop format },
}

// Where the walk over the items stands: the rank reached, whether the last item is a dimension, and whether F, E and D, the first, second and third feed,
// have stood.
#[derive(Clone, Copy)]
struct Order {
    last: u8,
    fresh: bool,
    first: bool,
    second: bool,
    third: bool,
}

// The digits that stand together at a place, as far as they can make an item; no slice of the text, since past three all are alike, and each is a value.
#[derive(Clone, Copy)]
enum Digits {
    Empty,
    One(u8),
    Two(u8, u8),
    Three(u8, u8, u8),
    Many,
}

// What is read at a place, and the place after it.
#[derive(Clone, Copy)]
struct Read<T> {
    value: T,
    after: usize,
}

// An item behind its dot, as it is written.
#[derive(Clone, Copy)]
struct Draft {
    letter: u8,
    mark: Mark,
    digits: Digits,
}

// What is read of a word item at a place: its dot; the rest of it, unless the text ends there; and the place after it.
#[derive(Clone, Copy)]
struct Seen {
    dot: bool,
    draft: Option<Draft>,
    after: usize,
}

// Why no item is made: it is short, so that more could mend it; or past mending.
#[derive(Clone, Copy)]
enum Unmade {
    Short,
    Unfit,
}

impl Edition {
    // What only 2539 has.
    fn is_later(self) -> bool
        ensures { result ≡ later self }
    {
        self == Edition::Iso2539
    }
}

// The edition with a number.
impl TryFrom<u32> for Edition {
    type Error = Refusal;

    ghost try_from_gives = { λ n r. told r ≡ edition_by n };

    fn try_from(number: u32) -> Result<Edition, Refusal> {
        match number {
            1057 => Ok(Edition::Iso1057),
            2539 => Ok(Edition::Iso2539),
            _ => Err(Cause::Edition.at(0)),
        }
    }
}

// The Format of a shorthand under an edition.
pub fn parse(edition: u32, text: &[u8]) -> Result<Usable, Refusal>
    ensures { told_by (λ usable. usable.format) result ≡ parsed edition text.now }
{
    let edition = Edition::try_from(edition)?;
    let sequence = sequence_at(edition, text)?;
    let format = read_items(edition, sequence.value, text, sequence.after)?;
    Ok(Usable { format })
}
