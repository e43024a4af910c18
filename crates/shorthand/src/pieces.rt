// The pieces of a text: a mark, the digits that stand together, and all that an item has.
ghost use Rattle.std.specs.Prelude.{◌≡◌, ◌<◌, length, drop};
ghost use Rattle.shorthand.specs.Lawful.{digit_in};
ghost use Rattle.shorthand.specs.Stand.{digits_of, after_digits, mark_of, after_mark};
ghost use Rattle.shorthand.specs.Places.{added, added_all, Begins, Sees};

use crate::{Digits, Draft, Mark, Read, Seen};

pub(crate) fn is_within(low: u8, high: u8, d: u8) -> bool
    ensures { result ≡ digit_in low high d }
{
    (low..=high).contains(&d)
}

fn add_digit(digits: Digits, d: u8) -> Digits
    ensures { result ≡ added digits d }
{
    match digits {
        Digits::Empty => Digits::One(d),
        Digits::One(a) => Digits::Two(a, d),
        Digits::Two(a, b) => Digits::Three(a, b, d),
        Digits::Three(_, _, _) | Digits::Many => Digits::Many,
    }
}

pub(crate) fn read_digits(text: &[u8], at: usize) -> Read<Digits>
    ensures digits { result.value ≡ added_all Digits.Empty (digits_of (drop at text.now)) }
    ensures after { Begins text.now at (after_digits (drop at text.now)) result.after }
{
    let mut value = Digits::Empty;
    for after in at..text.len() {
        let b = text[after];
        if !b.is_ascii_digit() {
            return Read { value, after };
        }
        value = add_digit(value, b - b'0');
    }
    Read {
        value,
        after: at.max(text.len()),
    }
}

fn read_mark(text: &[u8], at: usize) -> Read<Mark>
    ensures mark { result.value ≡ mark_of (drop at text.now) }
    ensures after { Begins text.now at (after_mark (drop at text.now)) result.after }
{
    let (value, after) = match text.get(at) {
        Some(b'+') => (Mark::Plus, at + 1),
        Some(b'D') => (Mark::Delta, at + 1),
        _ => (Mark::Unmarked, at),
    };
    Read { value, after }
}

// An item is read once, for whichever edition judges it.
pub(crate) fn see_item(text: &[u8], at: usize) -> Seen
    requires { at < length text.now }
    ensures { Sees text.now at result }
{
    let dot = text[at] == b'.';
    let front = if dot { at + 1 } else { at };
    if text.len() <= front {
        return Seen {
            dot,
            draft: None,
            after: front,
        };
    }
    let mark = read_mark(text, front + 1);
    let digits = read_digits(text, mark.after);
    Seen {
        dot,
        draft: Some(Draft {
            letter: text[front],
            mark: mark.value,
            digits: digits.value,
        }),
        after: digits.after,
    }
}
