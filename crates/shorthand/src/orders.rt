// The order of the items: what may come at a place, and what an item leaves to come.
ghost use Rattle.std.specs.Prelude.{◌≡◌};
ghost use Rattle.shorthand.specs.Edition.{allowed};
ghost use Rattle.shorthand.specs.Order.{rank, used, due_as_feed, due_as_dimension, reached, after};

use crate::{Edition, Item, Kind, Order};

// G comes before every dimension.
const GENERAL: u8 = 1;

// F, and E and D as feeds, come behind every dimension and before S.
const FEEDS: u8 = 19;

// Behind M nothing comes.
pub(crate) const LAST: u8 = 22;

// Nothing has stood yet.
pub(crate) const START: Order = Order {
    last: 0,
    fresh: false,
    first: false,
    second: false,
    third: false,
};

// The places of A to Z in the order of the items, from 1; 0 where no item has the letter, and no Option, since `rank` says so.
const RANKS: [u8; 26] = [
    14, 15, 16, 17, 18, 19, 1, 0, 11, 12, 13, 0, 22, 0, 0, 8, 9, 10, 20, 21, 5, 6, 7, 2, 3, 4,
];

pub(crate) fn rank_of(letter: u8) -> u8
    ensures { result ≡ rank letter }
{
    if letter.is_ascii_uppercase() {
        RANKS[(letter - b'A') as usize]
    } else {
        0
    }
}

// A letter is either feed or dimension, and stands once.
fn is_used(order: Order, letter: u8) -> bool
    ensures { result ≡ used order letter }
{
    match letter {
        b'D' => order.third,
        b'E' => order.second,
        b'F' => order.first,
        _ => false,
    }
}

pub(crate) fn due_as_feed(order: Order, letter: u8) -> bool
    ensures { result ≡ due_as_feed order letter }
{
    order.last <= FEEDS && !is_used(order, letter)
}

// I, J and K are for 2539 only.
pub(crate) fn is_allowed(edition: Edition, letter: u8) -> bool
    ensures { result ≡ allowed edition letter }
{
    edition.is_later() || !matches!(letter, b'I'..=b'K')
}

pub(crate) fn due_as_dimension(order: Order, letter: u8) -> bool
    ensures { result ≡ due_as_dimension order letter }
{
    let rank = rank_of(letter);
    if rank <= order.last || rank <= GENERAL || FEEDS <= rank {
        return false;
    }
    !is_used(order, letter)
}

// The rank that an item brings the walk to.
fn rank_reached(order: Order, item: Item) -> u8
    ensures { result ≡ reached order item }
{
    let letter = item.letter;
    let Kind::Speed(_) = item.kind else {
        return rank_of(letter);
    };
    match letter {
        b'F' => FEEDS,
        b'D' | b'E' => {
            // Right behind its own axis a feed leaves the dimensions open; anywhere else it ends them.
            if order.fresh { order.last } else { FEEDS }
        }
        _ => rank_of(letter),
    }
}

pub(crate) fn order_after(order: Order, item: Item) -> Order
    ensures { result ≡ after order item }
{
    let letter = item.letter;
    Order {
        last: rank_reached(order, item),
        fresh: matches!(item.kind, Kind::Dimension(_)),
        first: (letter == b'F') | order.first,
        second: (letter == b'E') | order.second,
        third: (letter == b'D') | order.third,
    }
}
