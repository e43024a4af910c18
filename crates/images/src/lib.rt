// Images that grow and shrink: a block appended to the image of a tape, the last one taken off, and the index of its blocks kept with it. The image is the
// first rows of a lent buffer; all of it where it has fewer.
#![tactic(auto)]

ghost use Rattle.std.specs.Prelude.{◌≡◌, ◌≤◌, length, take, replicate};
ghost use Rattle.rows.specs.Answer.{told};
ghost use Rattle.images.specs.Images.{append_in, appended_in, grown, buffer_grown, firsts_grown, numbers_grown, last_for, last_taken, shrunk, buffer_shrunk};

mod sites;

use index::building::{judge_room, mark_number};
use profile::Terms;
use punching::{measure_under, write_under};
use reading::Block;
use reading::walk::survey_tape;
use rows::{Cause, Refusal};
use shorthand::Usable;
use sites::find_site;

// How many rows an image has now, and how many blocks: the rows stand in a lent buffer, with no heap.
#[derive(Clone, Copy)]
pub struct Image {
    pub rows: usize,
    pub blocks: usize,
}

// Where rows go in an image, and how many rows it has then.
#[derive(Clone, Copy)]
pub struct Site {
    pub at: usize,
    pub rows: usize,
}

// A block appended under a Format: one walk judges the image, no row is made, and nothing is written before every refusal is excluded.
fn append_under(
    usable: Usable,
    image: &mut [u8],
    rows: usize,
    firsts: &mut [usize],
    numbers: &mut [u64],
    block: Block,
) -> Result<Image, Refusal>
    requires rows_in_bounds { rows ≤ length image.old }
    ensures image { told result ≡ grown (append_in usable.format image.old rows firsts.old numbers.old block) }
    ensures buffer { image.new ≡ buffer_grown image.old (append_in usable.format image.old rows firsts.old numbers.old block) }
    ensures firsts { firsts.new ≡ firsts_grown firsts.old (append_in usable.format image.old rows firsts.old numbers.old block) }
    ensures numbers { numbers.new ≡ numbers_grown numbers.old block (append_in usable.format image.old rows firsts.old numbers.old block) }
{
    let capacity = image.len();
    let survey = survey_tape(&image[..rows], usable, 0)?;
    let n = survey.count;
    let first = survey.last.to;
    let size = measure_under(usable, block)?;
    judge_room(n + 1, firsts.len(), numbers.len())?;
    let site = find_site(&image[..rows], first, capacity, size)?;
    let at = site.at;
    let end = at + size;
    write_under(usable, block, &mut image[at..end])?;
    firsts[n] = first;
    numbers[n] = mark_number(block.numbered, block.sequence);
    Ok(Image {
        rows: site.rows,
        blocks: n + 1,
    })
}

// A block appended to an image of so many rows, and its entry to the index.
#[tactic(auto, using(std::proofs::lemmas::List::take_min), unfolding(crate::specs::Images::appended))]
pub fn append_block(
    terms: &Terms<'_>,
    image: &mut [u8],
    rows: usize,
    firsts: &mut [usize],
    numbers: &mut [u64],
    block: Block,
) -> Result<Image, Refusal>
    ensures image { told result ≡ grown (appended_in terms.now.edition terms.now.shorthand.now terms.now.profile.now image.old rows firsts.old numbers.old block) }
    ensures buffer { image.new ≡ buffer_grown image.old (appended_in terms.now.edition terms.now.shorthand.now terms.now.profile.now image.old rows firsts.old numbers.old block) }
    ensures firsts { firsts.new ≡ firsts_grown firsts.old (appended_in terms.now.edition terms.now.shorthand.now terms.now.profile.now image.old rows firsts.old numbers.old block) }
    ensures numbers { numbers.new ≡ numbers_grown numbers.old block (appended_in terms.now.edition terms.now.shorthand.now terms.now.profile.now image.old rows firsts.old numbers.old block) }
{
    let usable = profile::parse(terms)?;
    let within = rows.min(image.len());
    append_under(usable, image, within, firsts, numbers, block)
}

// Every row overpunched to DEL.
pub fn rub_out(part: &mut [u8])
    ensures { part.new ≡ replicate (length part.old) 255 }
{
    part.fill(255);
}

// The last block taken off under a Format.
fn take_off_under(usable: Usable, image: &mut [u8], rows: usize) -> Result<Image, Refusal>
    requires rows_in_bounds { rows ≤ length image.old }
    ensures image { told result ≡ shrunk (take rows image.old) (last_for usable.format (take rows image.old)) }
    ensures buffer { image.new ≡ buffer_shrunk image.old (last_for usable.format (take rows image.old)) }
{
    let survey = survey_tape(&image[..rows], usable, 0)?;
    if survey.count == 0 {
        return Err(Cause::NoBlock.at(0));
    }
    let from = survey.last.from;
    let to = survey.last.to;
    rub_out(&mut image[from..to]);
    Ok(Image {
        rows,
        blocks: survey.count - 1,
    })
}

// The last block of an image of so many rows taken off: its rows become DEL, and its entry of the index is not looked at any more.
#[tactic(auto, using(std::proofs::lemmas::List::take_min), unfolding(crate::specs::Images::last_taken))]
pub fn take_off(terms: &Terms<'_>, image: &mut [u8], rows: usize) -> Result<Image, Refusal>
    ensures image { told result ≡ shrunk (take rows image.old) (last_taken terms.now.edition terms.now.shorthand.now terms.now.profile.now (take rows image.old)) }
    ensures buffer { image.new ≡ buffer_shrunk image.old (last_taken terms.now.edition terms.now.shorthand.now terms.now.profile.now (take rows image.old)) }
{
    let agreed = profile::parse(terms)?;
    let kept = rows.min(image.len());
    take_off_under(agreed, image, kept)
}
