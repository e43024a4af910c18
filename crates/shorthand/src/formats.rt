// The Format as its items are read, and the refusals.
ghost use Rattle.std.specs.Prelude.{◌≡◌, ◌<◌, None, false, [], length, drop};
ghost use Rattle.rows.specs.Answer.{told};
ghost use Rattle.rows.specs.Refusals.{numbered};
ghost use Rattle.shorthand.specs.Layout.{format_of};
ghost use Rattle.shorthand.specs.Stand.{Dots, stand};
ghost use Rattle.shorthand.specs.Parse.{beyond, opening, items_from};
ghost use Rattle.shorthand.specs.Places.{seen_in, ending, pushed};

use crate::items::judge_item;
use crate::orders::{START, order_after};
use crate::pieces::see_item;
use crate::{Edition, Format, Item, Kind, Order, Seen, Unmade};
use rows::{Cause, Refusal};

fn start_format(unnumbered: bool, sequence: u8) -> Format
    ensures { result ≡ format_of unnumbered sequence false [] }
{
    let unused = Item {
        letter: 0,
        kind: Kind::Plain(0),
    };
    Format {
        unnumbered,
        sequence,
        dots: false,
        addresses: true,
        count: 0,
        items: [unused; 22],
    }
}

fn push_item(mut format: Format, dots: bool, item: Item) -> Format
    requires { format.count < 22 }
    ensures { result ≡ pushed format dots item }
{
    let count = format.count;
    format.items[count] = item;
    format.count = count + 1;
    format.dots = dots;
    format
}

// What an item past mending is refused for: 2539 holds whatever is in form at all.
fn fault(dots: Option<bool>, order: Order, seen: Seen, text: &[u8]) -> Cause
    ensures { numbered result ≡ beyond (stand Edition.Iso2539 dots order (seen_in text.now seen)) }
{
    match judge_item(Edition::Iso2539, dots, order, seen, text) {
        Err(Unmade::Unfit) => Cause::ShorthandForm,
        _ => Cause::BeyondEdition,
    }
}

fn after_star(format: Format, text: &[u8], at: usize) -> Result<Format, Refusal>
    ensures { told result ≡ ending format at (drop at text.now) }
{
    if at < text.len() {
        return Err(Cause::ShorthandForm.at(at));
    }
    Ok(format)
}

pub(crate) fn read_items(
    edition: Edition,
    sequence: u8,
    text: &[u8],
    start: usize,
) -> Result<Format, Refusal>
    ensures { told result ≡ items_from (length text.now) edition (opening sequence start) (drop start text.now) }
{
    let mut format = start_format(edition.is_later(), sequence);
    // The first item settles whether the items have dots.
    let mut dots = None;
    let mut order = START;
    let mut at = start;
    // No `for`: an item has two to six bytes.
    while at < text.len() {
        if text[at] == b'*' {
            return after_star(format, text, at + 1);
        }
        let seen = see_item(text, at);
        match judge_item(edition, dots, order, seen, text) {
            Ok(item) => {
                format = push_item(format, seen.dot, item);
                dots = Some(seen.dot);
                order = order_after(order, item);
                at = seen.after;
            }
            Err(Unmade::Short) => return Err(Cause::ShorthandForm.at(text.len())),
            Err(Unmade::Unfit) => return Err(fault(dots, order, seen, text).at(at)),
        }
    }
    Err(Cause::ShorthandForm.at(at))
}
