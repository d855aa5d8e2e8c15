// The other counterparty by its kind, and the texts of a host's register of LEIs and of its list of countries.
use codes::host::{list_country, register_lei};
use fields::field::report::PartyKind;
use fields::party::OtherParty;
use refusals::refusal::Refusal;

// Texts, and whether they spell an LEI, a client code and a country.
const TEXTS: &[(&str, bool, bool, bool)] = &[
    ("259400LUPUA1BSPB4X83", true, true, false),
    ("00000000000000000000", true, true, false),
    ("259400LUPUA1BSPB4X8", false, true, false),
    ("259400LUPUA1BSPB4X830", false, false, false),
    ("259400lupua1bspb4x83", false, false, false),
    ("259400LUPUA1BSPB4X8 ", false, false, false),
    ("K", false, true, false),
    ("7", false, true, false),
    ("k", false, false, false),
    ("KLIENT-1", false, false, false),
    ("PL", false, true, true),
    ("P1", false, true, false),
    ("POL", false, true, false),
    ("pl", false, false, false),
    ("", false, false, false),
];

// Whether a text names a party of this kind, or does not. If it does, it comes back as it stands.
fn is_party(kind: PartyKind, text: &str, named: bool) -> bool {
    let Ok(party) = OtherParty::read(kind, text.as_bytes()) else {
        return !named;
    };
    named
        && party.kind() == kind
        && party.bytes() == text.as_bytes()
        && party.code().bytes() == text.as_bytes()
}

// Whether a refusal is that of a bad field with this tag, in the numbers by which senders know both.
fn is_bad_field(refusal: Refusal, tag: u8) -> bool {
    refusal.number() == 3 && refusal.tag().map(u8::from) == Some(tag)
}

fn is_registered(text: &str, lei: bool) -> bool {
    match register_lei(text.as_bytes()) {
        Ok(code) => lei && code.bytes() == text.as_bytes(),
        Err(refusal) => !lei && is_bad_field(refusal, 2),
    }
}

fn is_listed(text: &str, country: bool) -> bool {
    match list_country(text.as_bytes()) {
        Ok(code) => country && code.bytes() == text.as_bytes(),
        Err(refusal) => !country && is_bad_field(refusal, 5),
    }
}

#[test]
fn texts_name_parties_and_countries(rt: HostRuntime) {
    for (text, lei, client, country) in TEXTS {
        assert!(rt; is_party(PartyKind::Lei, text, *lei), "{text}");
        assert!(rt; is_party(PartyKind::Client, text, *client), "{text}");
        assert!(rt; is_registered(text, *lei), "{text}");
        assert!(rt; is_listed(text, *country), "{text}");
    }
}
