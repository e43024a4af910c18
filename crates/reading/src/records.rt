// A block gathered into its record.
ghost use Rattle.std.specs.Prelude.{◌≡◌, [], ◌+◌, ◌<◌, set};
ghost use Rattle.rows.specs.Answer.{told};
ghost use Rattle.reading.specs.Record.{block_of, empty_block};
ghost use Rattle.reading.specs.Survey.{entry_from};

use crate::{Block, Entry};
use parts::Begun;
use parts::items::guide_of;
use rows::{Cause, Refusal};
use shorthand::Usable;
use steps::walking::take_step;
use steps::{Cursor, Event, Stage};
use words::{Value, Word};

// A block with no words yet.
fn new_block(begun: Begun) -> Block
    ensures { result ≡ block_of begun [] }
{
    let blank = Word {
        letter: 0,
        value: Value::Number(0),
    };
    Block {
        skip: begun.skip,
        alignment: begun.alignment,
        numbered: begun.numbered,
        sequence: begun.sequence,
        count: 0,
        words: [blank; 22],
    }
}

// A block with one more word.
fn with_word(block: Block, word: Word) -> Block
    requires { block.count < 22 }
    ensures { result ≡ record block { count = block.count + 1; words = set block.words block.count word } }
{
    let mut next = block;
    let at = block.count;
    next.words[at] = word;
    next.count = at + 1;
    next
}

// A block with neither number nor word.
pub fn empty_block() -> Block
    ensures { result ≡ empty_block }
{
    new_block(Begun {
        skip: false,
        alignment: false,
        numbered: false,
        sequence: 0,
    })
}

// The block that begins at a row, whatever stands before it, and where its rows stand.
pub fn block_from(tape: &[u8], usable: Usable, from: usize) -> Result<Entry, Refusal>
    ensures { told result ≡ entry_from usable.format tape.now from }
{
    let guide = guide_of(usable);
    let mut cursor = Cursor {
        stage: Stage::Between,
        item: 0,
        empty: false,
        front: rows::next_kept(tape, from),
    };
    let mut block = empty_block();
    loop {
        let item = usable.format.items[cursor.item];
        let step = take_step(tape, &guide, item, cursor)?;
        cursor = step.cursor;
        match step.event {
            Event::Opened(begun) => block = new_block(begun),
            Event::Read(word) => block = with_word(block, word),
            Event::Closed(lf) => {
                return Ok(Entry {
                    block,
                    from,
                    to: lf + 1,
                });
            }
            Event::Finished => return Err(Cause::CutShort.at(tape.len())),
            Event::Out => {}
        }
    }
}
