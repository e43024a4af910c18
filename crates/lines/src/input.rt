// The listing's input: its header, and the number of blocks of its rows.
ghost use Rattle.std.specs.Prelude.{◌≡◌, ◌≤◌, length, IfOk};
ghost use Rattle.rows.specs.Answer.{told};
ghost use Rattle.reading.specs.Answers.{size_of};
ghost use Rattle.lines.specs.Listing.{edition_of, header_found, header_of, listed_under};

use crate::Header;
use profile::Terms;
use rows::{Cause, Refusal};
use text::finding::find_byte;

// The most rows that are listed.
pub const MOST: usize = 60000;

// The most bytes that a header may have.
const HEADER: usize = 200;

// What stands for a header where there is none.
const NO_HEADER: Header = Header {
    edition: 0,
    from: 0,
    to: 0,
    rows: 0,
};

// The edition by its text; any other text is 0, which is no edition. A number and no Option: `Terms` takes any number, and refuses this one in its turn.
fn edition_of(text: &[u8]) -> u32
    ensures { result ≡ edition_of text.now }
{
    match text {
        b"1057" => 1057,
        b"2539" => 2539,
        _ => 0,
    }
}

// The header of an input; one that has none is refused as one without an edition.
pub fn find_header(input: &[u8]) -> Result<Header, Refusal>
    ensures header { told result ≡ header_found input.now }
    ensures within { IfOk result (λ h. (h.from ≤ h.to) × (h.to ≤ length input.now) × (h.rows ≤ length input.now)) }
{
    let most = HEADER.min(input.len());
    let lf = find_byte(input, 0, most, b'\n');
    let space = find_byte(input, 0, lf, b' ');
    if most <= lf || lf <= space {
        return Err(Cause::Edition.at(0));
    }
    Ok(Header {
        edition: edition_of(&input[..space]),
        from: space + 1,
        to: lf,
        rows: lf + 1,
    })
}

// The header of an input, all 0 where there is none.
pub fn read_header(input: &[u8]) -> Header
    ensures header { result ≡ header_of input.now }
    ensures within { (result.from ≤ result.to) × (result.to ≤ length input.now) × (result.rows ≤ length input.now) }
{
    find_header(input).unwrap_or(NO_HEADER)
}

// The number of blocks of an input's rows under its terms, or why they are not listed.
#[tactic(auto, unfolding(crate::specs::Listing::listed_under, reading::specs::Answers::read_under))]
pub fn count_listed(terms: &Terms<'_>, tape: &[u8]) -> Result<usize, Refusal>
    ensures { told result ≡ size_of (listed_under terms.now.edition terms.now.shorthand.now terms.now.profile.now tape.now) }
{
    if MOST < tape.len() {
        profile::parse(terms)?;
        return Err(Cause::Length.at(MOST));
    }
    reading::count_blocks(terms, tape)
}
