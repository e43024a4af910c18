// How an item stands, by its pieces: the word items, and N.
ghost use Rattle.std.specs.Prelude.{◌≡◌, drop};
ghost use Rattle.shorthand.specs.Stand.{Dots, dot_fits, stand};
ghost use Rattle.shorthand.specs.Places.{found, seen_in, Opens};

use crate::kinds::make_kind;
use crate::orders::LAST;
use crate::pieces::{is_within, read_digits};
use crate::{Digits, Edition, Item, Order, Read, Seen, Unmade};
use rows::{Cause, Refusal};

fn dot_fits(edition: Edition, dots: Option<bool>, dot: bool) -> bool
    ensures { result ≡ dot_fits edition dots dot }
{
    match dots {
        None => edition.is_later() || dot,
        Some(settled) => dot == settled,
    }
}

// The word item with these pieces, behind these dots and this order.
pub(crate) fn judge_item(
    edition: Edition,
    dots: Option<bool>,
    order: Order,
    seen: Seen,
    text: &[u8],
) -> Result<Item, Unmade>
    ensures { found (drop seen.after text.now) result ≡ stand edition dots order (seen_in text.now seen) }
{
    if !dot_fits(edition, dots, seen.dot) {
        return Err(Unmade::Unfit);
    }
    let Some(draft) = seen.draft else {
        // At the end of the text an item could still come, or none.
        return Err(if order.last < LAST {
            Unmade::Short
        } else {
            Unmade::Unfit
        });
    };
    match make_kind(edition, order, draft) {
        Ok(kind) => Ok(Item {
            letter: draft.letter,
            kind,
        }),
        // Further bytes are its digits only where the text ends with it.
        Err(unmade) if text.len() <= seen.after => Err(unmade),
        Err(_) => Err(Unmade::Unfit),
    }
}

// The N item at the front of the text, by its digit: in form first, and then in the edition.
pub(crate) fn sequence_at(edition: Edition, text: &[u8]) -> Result<Read<u8>, Refusal>
    ensures { Opens edition text.now result }
{
    if !text.starts_with(b"N") {
        return Err(Cause::ShorthandForm.at(0));
    }
    let run = read_digits(text, 1);
    match run.value {
        Digits::One(d) if is_within(3, 9, d) => {
            // N4 to N9 are in form, and past mending in 1057.
            if 3 < d && !edition.is_later() {
                return Err(Cause::BeyondEdition.at(0));
            }
            Ok(Read {
                value: d,
                after: run.after,
            })
        }
        // Its digit may yet come where the text ends with N.
        Digits::Empty if text.len() <= run.after => Err(Cause::ShorthandForm.at(text.len())),
        _ => Err(Cause::ShorthandForm.at(0)),
    }
}
