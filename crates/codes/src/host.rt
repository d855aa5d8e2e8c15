// Texts of a host's register of LEIs and list of countries.
ghost use Rattle.std.specs.Prelude.{◌≡◌};
ghost use Rattle.std.specs.Result.{result_map_both};
ghost use Rattle.refusals.specs.Words.{parts_of};
ghost use Rattle.refusals.specs.declared.tag.Tag.TheVariants.{ReportingCounterparty, OtherCountry};
ghost use Rattle.codes.specs.Codes.{text_of};
ghost use Rattle.codes.specs.Hosts.{field_of};
ghost use Rattle.codes.specs.Values.{capitals, capitals_and_digits};

use crate::alphabet::Alphabet;
use crate::code::{Code, Country, Lei};
use refusals::refusal::Refusal;
use refusals::tag::Tag;

// The code of a field's text, or a refusal that names the field.
fn read_field<A: Alphabet, const LEAST: usize, const MOST: usize>(
    text: &[u8],
    tag: Tag,
) -> Result<Code<A, LEAST, MOST>, Refusal>
    ensures { result_map_both text_of parts_of result ≡ field_of A.letters LEAST MOST tag text.now }
{
    Code::read(text).map_err(|_| Refusal::BadField(tag))
}

// The LEI of an entry of the register. A line for each kind of entry, since each promise names its field.
pub fn register_lei(text: &[u8]) -> Result<Lei, Refusal>
    ensures { result_map_both text_of parts_of result ≡ field_of capitals_and_digits 20 20 ReportingCounterparty text.now }
{
    read_field(text, Tag::ReportingCounterparty)
}

// The country of an entry of the list.
pub fn list_country(text: &[u8]) -> Result<Country, Refusal>
    ensures { result_map_both text_of parts_of result ≡ field_of capitals 2 2 OtherCountry text.now }
{
    read_field(text, Tag::OtherCountry)
}
