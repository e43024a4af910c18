// The blocks of a tape followed: from zero to block n, or one block from where the axes stood before it.
ghost use Rattle.std.specs.Prelude.{◌≡◌, ◌<◌, length, get_or};
ghost use Rattle.rows.specs.Answer.{taken, told};
ghost use Rattle.reading.specs.Answers.{nowhere, read};
ghost use Rattle.index.specs.Index.{entries_of};
ghost use Rattle.slides.specs.Axes.{sound};
ghost use Rattle.slides.specs.Answers.{blocks_to, from_zero, followed_in, stepped_in};

use crate::axes::check_travel;
use crate::moves::{START, move_block};
use crate::{Rule, Slides};
use index::finding::find_entry;
use reading::among;
use reading::records::block_from;
use reading::walk::survey_tape;
use rows::Refusal;
use shorthand::Usable;

// Blocks 0 to n of an accepted tape, the first of which begins at a row, from zero.
fn follow_blocks(
    tape: &[u8],
    usable: Usable,
    rule: Rule,
    first: usize,
    n: usize,
) -> Result<Slides, Refusal>
    requires tape_value { read usable.format tape.now ≡ taken (entries_of usable.format tape.now) }
    requires n_in_bounds { (n < length (entries_of usable.format tape.now)) × (first ≡ (get_or (entries_of usable.format tape.now) 0 nowhere).from) }
    ensures { told result ≡ from_zero rule (blocks_to n (entries_of usable.format tape.now)) }
{
    check_travel(rule.travel, START.places)?;
    let mut slides = START;
    let mut from = first;
    for k in 0..=n {
        let entry = block_from(tape, usable, from)?;
        slides = move_block(rule, k, entry.block, slides)?;
        from = entry.to;
    }
    Ok(slides)
}

// Where the axes stand behind block n: one walk judges the tape, a second one goes to block n.
pub(crate) fn follow_under(
    tape: &[u8],
    usable: Usable,
    rule: Rule,
    n: usize,
) -> Result<Slides, Refusal>
    ensures { told result ≡ followed_in usable.format rule tape.now n }
{
    let survey = survey_tape(tape, usable, 0)?;
    among(survey.count, n)?;
    let part = survey.part;
    follow_blocks(tape, usable, rule, part.from, n)
}

// Where the axes stand behind block n, from where they stood before it.
#[tactic(auto, unfolding(crate::specs::Answers::stepped_in))]
pub(crate) fn step_under(
    tape: &[u8],
    usable: Usable,
    rule: Rule,
    firsts: &[usize],
    n: usize,
    slides: Slides,
) -> Result<Slides, Refusal>
    ensures { told result ≡ stepped_in usable.format rule tape.now firsts.now n slides }
{
    let found = find_entry(tape, usable, firsts, n)?;
    check_travel(rule.travel, slides.places)?;
    move_block(rule, n, found.block, slides)
}
