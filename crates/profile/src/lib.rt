// The profile: the general shorthand, with which the detailed one must agree.
#![tactic(auto)]

ghost use Rattle.std.specs.Prelude.{◌≡◌};
ghost use Rattle.rows.specs.Answer.{told_by};
ghost use Rattle.profile.specs.Answers.{profiled, agreed};

mod forms;
pub mod items;

use forms::{fill_form, said_in};
use items::agree;
use rows::{Cause, Refusal};
use shorthand::{Edition, Format, Usable};

// What a tape is read or punched under: the number of an edition, a detailed shorthand, and a general one, which may be empty.
// Stays so: a number and not an Edition, since any number is asked for, and one that is no edition is refused by 1 (`agreed`).
#[derive(Clone, Copy)]
pub struct Terms<'a> {
    pub edition: u32,
    pub shorthand: &'a [u8],
    pub profile: &'a [u8],
}

// What a general shorthand says: A, T or S; R or D, or 0; its three digits; and A, I or B. In 1057 the first and the last are 0.
// Bytes, 0 for none, and no enums: `said_in`, `Agrees` and `Fills` speak of them so.
#[derive(Clone, Copy)]
struct General {
    way: u8,
    rotary: u8,
    first: u8,
    second: u8,
    third: u8,
    moves: u8,
}

// The Format under a profile: the same but without addresses under T. 22 comes before 23 (document 02, 2/12).
fn hold_profile(edition: Edition, usable: Usable, profile: &[u8]) -> Result<Usable, Refusal>
    ensures { told_by (λ held. held.format) result ≡ profiled edition usable.format profile.now }
{
    if profile.is_empty() {
        return Ok(usable);
    }
    let bytes = fill_form(edition, profile)?;
    let general = said_in(edition, bytes);
    if !agree(usable, general) {
        return Err(Cause::Disagreement.at(0));
    }
    let format = Format {
        addresses: general.way != b'T',
        ..usable.format
    };
    Ok(Usable { format })
}

// The Format of a detailed shorthand and a profile under an edition. 1, 2 and 3 come before 22 and 23.
pub fn parse(terms: &Terms<'_>) -> Result<Usable, Refusal>
    ensures { told_by (λ usable. usable.format) result ≡ agreed terms.now.edition terms.now.shorthand.now terms.now.profile.now }
{
    let edition = Edition::try_from(terms.edition)?;
    let usable = shorthand::parse(terms.edition, terms.shorthand)?;
    hold_profile(edition, usable, terms.profile)
}
