// One step of a walk over the blocks of a tape: the grammar of a block, in one place.
ghost use Rattle.std.specs.Prelude.{◌≡◌, List, ℕ, ◌≤◌, ◌<◌, length};
ghost use Rattle.rows.specs.Answer.{told_by};
ghost use Rattle.shorthand.specs.Facts.{Widths};
ghost use Rattle.shorthand.specs.Layout.{way_by};
ghost use Rattle.words.specs.Front.{rows_at};
ghost use Rattle.parts.specs.Ends.{close_at};
ghost use Rattle.parts.specs.Items.{standing};
ghost use Rattle.steps.specs.Steps.{going, open_step, takes, closes_by, step_at, Ready};
ghost use Rattle.steps.specs.Front.{spot_told, step_told};

use crate::{Cursor, Event, Stage, Step};
use parts::ends::find_end;
use parts::items::reach_item;
use parts::starts::read_start;
use parts::{Guide, Reach};
use rows::{Kept, Refusal};
use shorthand::Item;
use words::datum::read_word;

// Before the item that is due from item k on, or behind the last of them.
fn go_on(guide: &Guide, empty: bool, k: usize, front: Option<Kept>) -> Cursor
    ensures { (t : List ℕ) → spot_told t result ≡ going guide.now.rules guide.now.leads empty k (rows_at t front) }
{
    let due = guide.due(k, front);
    if due < guide.rules.items {
        Cursor {
            stage: Stage::Before,
            item: due,
            empty,
            front,
        }
    } else {
        Cursor {
            stage: Stage::Ending,
            item: 0,
            empty,
            front,
        }
    }
}

// Between two blocks: nothing is left, or the start of the next.
fn open_block(tape: &[u8], guide: &Guide, cursor: Cursor) -> Result<Step, Refusal>
    ensures { told_by (step_told tape.now) result ≡ open_step (length tape.now) guide.now.rules guide.now.leads (spot_told tape.now cursor) (rows_at tape.now cursor.front) }
{
    if cursor.front.is_none() {
        return Ok(Step {
            event: Event::Finished,
            cursor,
        });
    }
    let begun = read_start(tape, guide, cursor.front)?;
    Ok(Step {
        event: Event::Opened(begun.value),
        cursor: go_on(guide, !begun.value.numbered, 0, begun.front),
    })
}

// Before an item: its word, or it is left out.
fn take_item(tape: &[u8], guide: &Guide, item: Item, cursor: Cursor) -> Result<Step, Refusal>
    requires { Widths item.kind × (cursor.item < 22) }
    ensures { told_by (step_told tape.now) result ≡ takes (length tape.now) item (going guide.now.rules guide.now.leads) (spot_told tape.now cursor) (standing (way_by guide.now.rules.dots guide.now.rules.addresses) item.letter (rows_at tape.now cursor.front)) }
{
    let front = cursor.front;
    let next_item = cursor.item + 1;
    match reach_item(tape, guide.rules, item.letter, front) {
        Reach::Stops => Ok(Step {
            event: Event::Out,
            cursor: Cursor {
                stage: Stage::Ending,
                item: 0,
                empty: cursor.empty,
                front,
            },
        }),
        Reach::Out(next) => Ok(Step {
            event: Event::Out,
            cursor: go_on(guide, cursor.empty, next_item, next),
        }),
        Reach::At(place, data) => {
            let word = read_word(tape, item, place, data)?;
            Ok(Step {
                event: Event::Read(word.value),
                cursor: go_on(guide, false, next_item, word.front),
            })
        }
    }
}

// Behind the items: an end.
#[tactic(auto, using(words::proofs::Fetched::fetched))]
fn close_block(tape: &[u8], cursor: Cursor) -> Result<Step, Refusal>
    ensures { told_by (step_told tape.now) result ≡ closes_by (close_at (length tape.now) cursor.empty (rows_at tape.now cursor.front)) }
{
    let end = find_end(tape, cursor.empty, cursor.front)?;
    Ok(Step {
        event: Event::Closed(end.lf),
        cursor: Cursor {
            stage: Stage::Between,
            item: 0,
            empty: false,
            front: rows::next_kept(tape, end.after),
        },
    })
}

// One step. The item is the cursor's; between blocks and behind the items it is not looked at.
#[tactic(auto, unfolding(crate::specs::Steps::step_at))]
pub fn take_step(tape: &[u8], guide: &Guide, item: Item, cursor: Cursor) -> Result<Step, Refusal>
    requires { Ready item cursor }
    ensures { told_by (step_told tape.now) result ≡ step_at (length tape.now) guide.now.rules guide.now.leads item (spot_told tape.now cursor) }
{
    match cursor.stage {
        Stage::Between => open_block(tape, guide, cursor),
        Stage::Before => take_item(tape, guide, item, cursor),
        Stage::Ending => close_block(tape, cursor),
    }
}
