// What an item's mark and digits make, behind the items that have stood.
ghost use Rattle.std.specs.Prelude.{◌≡◌, ℕ, cond, List};
ghost use Rattle.shorthand.specs.Edition.{speed_least};
ghost use Rattle.shorthand.specs.Stand.{wrong, one_digit, unmarked, figured, two_digits, three_digits, as_dimension, kind_made};
ghost use Rattle.shorthand.specs.Places.{digits_in, making, making_by, pieces_in};

use crate::orders::{due_as_dimension, due_as_feed, is_allowed, rank_of};
use crate::pieces::is_within;
use crate::{Digits, Draft, Edition, Figures, Kind, Mark, Missing, Order, Unmade};

// A coded speed has 3, 4 or 5 digits; of F and S in 2539 also 2.
fn speed_least(edition: Edition, letter: u8) -> u8
    ensures { result ≡ speed_least edition letter }
{
    if !edition.is_later() {
        return 3;
    }
    match letter {
        b'F' | b'S' => 2,
        _ => 3,
    }
}

// The digit of an item that has one, where it is due: only a dimension has a mark.
fn single_digit(due: bool, low: u8, high: u8, draft: Draft) -> Result<u8, Unmade>
    ensures { (k : ℕ → Kind) → making_by k result ≡ cond due (unmarked draft.mark (one_digit low high k (digits_in draft.digits))) wrong }
{
    if !due || draft.mark != Mark::Unmarked {
        return Err(Unmade::Unfit);
    }
    match draft.digits {
        Digits::Empty => Err(Unmade::Short),
        Digits::One(d) if is_within(low, high, d) => Ok(d),
        _ => Err(Unmade::Unfit),
    }
}

fn dimension_of(edition: Edition, mark: Mark, missing: Missing, before: u8, after: u8) -> Kind
    ensures { result ≡ figured edition mark missing before after }
{
    Kind::Dimension(Figures {
        mark,
        before,
        after,
        missing,
        bare: edition.is_later(),
    })
}

// `00` makes no item, but in 2539 a third digit may.
fn two_digits(edition: Edition, mark: Mark, a: u8, b: u8) -> Result<Kind, Unmade>
    ensures { making result ≡ two_digits edition mark a b }
{
    if a == 0 && b == 0 {
        return Err(if edition.is_later() {
            Unmade::Short
        } else {
            Unmade::Unfit
        });
    }
    Ok(dimension_of(edition, mark, Missing::Nothing, a, b))
}

// Both outer digits zero, or neither, is refused, because `040` could mean either end.
fn three_digits(edition: Edition, mark: Mark, x: u8, y: u8, z: u8) -> Result<Kind, Unmade>
    ensures { making result ≡ three_digits edition mark x y z }
{
    if !edition.is_later() || (x == 0) == (z == 0) {
        return Err(Unmade::Unfit);
    }
    if x == 0 {
        return Ok(dimension_of(edition, mark, Missing::Leading, y, z));
    }
    Ok(dimension_of(edition, mark, Missing::Trailing, x, y))
}

fn make_dimension(edition: Edition, order: Order, draft: Draft) -> Result<Kind, Unmade>
    ensures { (t : List ℕ) → making result ≡ as_dimension edition order (pieces_in t draft) }
{
    if !is_allowed(edition, draft.letter) || !due_as_dimension(order, draft.letter) {
        return Err(Unmade::Unfit);
    }
    match draft.digits {
        Digits::Empty | Digits::One(_) => Err(Unmade::Short),
        Digits::Two(a, b) => two_digits(edition, draft.mark, a, b),
        Digits::Three(x, y, z) => three_digits(edition, draft.mark, x, y, z),
        Digits::Many => Err(Unmade::Unfit),
    }
}

pub(crate) fn make_kind(edition: Edition, order: Order, draft: Draft) -> Result<Kind, Unmade>
    ensures { (t : List ℕ) → making result ≡ kind_made edition order (pieces_in t draft) }
{
    let letter = draft.letter;
    let turn = order.last < rank_of(letter);
    let least = speed_least(edition, letter);
    match letter {
        b'G' | b'M' => single_digit(turn, 2, 2, draft).map(Kind::Plain),
        b'T' => single_digit(turn, 1, 9, draft).map(Kind::Plain),
        b'S' => single_digit(turn, least, 5, draft).map(Kind::Speed),
        b'D' | b'E' | b'F' => {
            // A feed where the digits make one or may yet, else a dimension.
            match single_digit(due_as_feed(order, letter), least, 5, draft) {
                Ok(d) => Ok(Kind::Speed(d)),
                Err(Unmade::Short) => Err(Unmade::Short),
                Err(Unmade::Unfit) => make_dimension(edition, order, draft),
            }
        }
        _ => make_dimension(edition, order, draft),
    }
}
