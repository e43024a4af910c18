// The walk over all blocks of a tape: how many there are, and where the rows of one of them and of the last stand.
ghost use Rattle.std.specs.Prelude.{◌≡◌, ◌+◌, ◌<◌, ◌^◌, cond, eqb, length};
ghost use Rattle.rows.specs.Answer.{told_by};
ghost use Rattle.words.specs.Front.{rows_at};
ghost use Rattle.reading.specs.Answers.{read, size_of};
ghost use Rattle.reading.specs.Front.{part_in, Rising, blocks_behind};
ghost use Rattle.reading.specs.Survey.{surveyed_from, surveyed, last_in};

use crate::{Part, Survey};
use parts::ends::enter_tape;
use parts::items::guide_of;
use rows::{Kept, Refusal};
use shorthand::Usable;
use steps::walking::take_step;
use steps::{Cursor, Event, Stage};

impl Survey {
    // With one more block, which is asked for where it is block n.
    fn with(self, new: Part, n: usize) -> Survey
        requires { self.count + 1 < 2 ^ 64 }
        ensures { result ≡ record { count = self.count + 1; part = cond (eqb self.count n) new self.part; last = new } }
    {
        Survey {
            count: self.count + 1,
            part: if self.count == n { new } else { self.part },
            last: new,
        }
    }
}

// All blocks from a row on: their number, and where the rows of block n and of the last stand.
pub fn survey_blocks(
    tape: &[u8],
    usable: Usable,
    n: usize,
    first: usize,
    front: Option<Kept>,
) -> Result<Survey, Refusal>
    requires rising { Rising (length tape.now) first (rows_at tape.now front) }
    ensures count { told_by (λ s. s.count) result ≡ size_of (blocks_behind usable.format tape.now first front) }
    ensures part { told_by (λ s. s.part) result ≡ part_in n (blocks_behind usable.format tape.now first front) }
    ensures last { told_by (λ s. s.last) result ≡ last_in (surveyed_from first (blocks_behind usable.format tape.now first front)) }
{
    let guide = guide_of(usable);
    let mut cursor = Cursor {
        stage: Stage::Between,
        item: 0,
        empty: false,
        front,
    };
    let mut survey = Survey {
        count: 0,
        part: Part { from: 0, to: 0 },
        last: Part {
            from: first,
            to: first,
        },
    };
    loop {
        let item = usable.format.items[cursor.item];
        let step = take_step(tape, &guide, item, cursor)?;
        cursor = step.cursor;
        match step.event {
            Event::Finished => return Ok(survey),
            Event::Closed(lf) => {
                let from = survey.last.to;
                survey = survey.with(Part { from, to: lf + 1 }, n);
            }
            _ => {}
        }
    }
}

// All four stages under a Format: the number of blocks, and where the rows of block n and of the last stand.
pub fn survey_tape(tape: &[u8], usable: Usable, n: usize) -> Result<Survey, Refusal>
    ensures count { told_by (λ s. s.count) result ≡ size_of (read usable.format tape.now) }
    ensures part { told_by (λ s. s.part) result ≡ part_in n (read usable.format tape.now) }
    ensures last { told_by (λ s. s.last) result ≡ last_in (surveyed usable.format tape.now) }
{
    let head = enter_tape(tape)?;
    survey_blocks(tape, usable, n, head.value + 1, head.front)
}
