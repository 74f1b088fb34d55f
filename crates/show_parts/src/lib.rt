// The parts of a message's line: named numbers, GUIDs and fields.
#![tactic(auto, using(show_text::proofs::PageLaws::pages))]

ghost use Rattle.std.specs.Prelude.{◌≡◌};
ghost use Rattle.show_text.specs.Page.{with_text};
ghost use Rattle.wire_fields.specs.FieldList.{listed_at};
ghost use Rattle.show_parts.specs.Parts.{guid_group, guid_text, guid_named, shown, name_text, count_text, field_text, listed_text, fields_text};

use show_escaped::put_hex;
use show_text::Page;
use wire_connect::Guid;
use wire_field::{Field, FieldName, Form};
use wire_fields::Listed;

#[tactic(auto, using(show_text::proofs::PageLaws::pages), unfolding(crate::specs::Parts::guid_group))]
fn put_group(page: &mut Page, s: &[u8])
    ensures { page.new ≡ with_text page.old (guid_group s.now) }
{
    put_hex(page, s);
    page.text(b"-");
}

// The first three groups are numbers, low byte first in the message.
fn put_guid(page: &mut Page, guid: Guid)
    ensures { page.new ≡ with_text page.old (guid_text guid) }
{
    let b = guid.bytes();
    put_group(page, &[b[3], b[2], b[1], b[0]]);
    put_group(page, &[b[5], b[4]]);
    put_group(page, &[b[7], b[6]]);
    put_group(page, &b[8..10]);
    put_hex(page, &b[10..]);
}

#[tactic(auto, using(show_text::proofs::PageLaws::pages), unfolding(crate::specs::Parts::guid_named))]
pub fn put_named_guid(page: &mut Page, word: &[u8], guid: Guid)
    ensures { page.new ≡ with_text page.old (guid_named word.now guid) }
{
    page.text(word);
    put_guid(page, guid);
}

#[tactic(auto, using(show_text::proofs::PageLaws::pages), unfolding(crate::specs::Parts::shown))]
fn put_shown(page: &mut Page, form: Form, s: &[u8])
    ensures { page.new ≡ with_text page.old (shown form s.now) }
{
    match form {
        Form::Free => show_escaped::put_bytes(page, s),
        Form::Text => show_escaped::put_units(page, s),
        Form::Url => show_escaped::put_url(page, s),
    }
}

#[tactic(auto, unfolding(crate::specs::Parts::name_text, show_text::specs::Text::ascii))]
fn word(name: FieldName) -> &'static [u8]
    ensures { result.now ≡ name_text name }
{
    match name {
        FieldName::Name => b" name ",
        FieldName::Data => b" data ",
        FieldName::Password => b" password ",
        FieldName::ConnectData => b" connect-data ",
        FieldName::Url => b" url ",
        FieldName::AlternateAddress => b" alternate-address ",
    }
}

// Puts the count of a text's characters.
#[tactic(auto, using(show_text::proofs::PageLaws::pages), unfolding(crate::specs::Parts::count_text))]
fn put_count(page: &mut Page, form: Form, n: u32)
    ensures { page.new ≡ with_text page.old (count_text form n) }
{
    match form {
        Form::Free => {}
        Form::Text | Form::Url => page.named(b" ", n),
    }
}

#[tactic(auto, using(show_text::proofs::PageLaws::pages), unfolding(crate::specs::Parts::field_text))]
fn put_field(page: &mut Page, name: FieldName, field: Field, s: &[u8])
    ensures { page.new ≡ with_text page.old (field_text name field s.now) }
{
    if let Some(span) = field {
        let form = wire_field::form_of(name);
        page.text(word(name));
        put_shown(page, form, s);
        put_count(page, form, span.characters);
    }
}

#[tactic(auto, using(show_text::proofs::PageLaws::pages), unfolding(crate::specs::Parts::listed_text, wire_fields::specs::FieldList::part_at))]
fn put_field_at(page: &mut Page, m: &[u8], place: usize)
    ensures { page.new ≡ with_text page.old (listed_text m.now (listed_at m.now place)) }
{
    if let Some(Listed { name, field }) = wire_fields::field_at(m, place) {
        put_field(page, name, field, wire_fields::part_at(m, place));
    }
}

// Puts the message's fields, in the order of their list.
#[tactic(auto, using(show_text::proofs::PageLaws::pages, crate::proofs::FieldTextLaws::field_places), unfolding(crate::specs::Parts::fields_text))]
pub fn put_fields(page: &mut Page, m: &[u8])
    ensures { page.new ≡ with_text page.old (fields_text m.now) }
{
    for place in 0..wire_fields::count(m) {
        put_field_at(page, m, place);
    }
}
