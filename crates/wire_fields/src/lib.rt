// A reader of a message's fields: it carries the message that it was opened on and its place in the list of fields.
// The functions over the reader only take it apart; the work is done by those that take the message and the place.
#![tactic(auto)]

ghost use Rattle.std.specs.Prelude.{◌≡◌};
ghost use Rattle.wire_field.specs.Fields.{count_of};
ghost use Rattle.wire_fields.specs.FieldList.{names_said, field_count, listed_at, Shows, count_at, place_after};

use wire_field::{Field, FieldName};
use wire_layout::EXTENDED_FROM;
use wire_read::Message;

#[derive(Clone, Copy)]
pub struct FieldReader<'a> {
    pub message: &'a [u8],
    pub place: usize,
}

// A field of the list with its name, present or absent.
#[derive(Clone, Copy)]
pub struct Listed {
    pub name: FieldName,
    pub field: Field,
}

// The names of 0xC1 in header order; the plain form has all but the last.
const CONNECT_NAMES: [FieldName; 6] = [
    FieldName::Name,
    FieldName::Data,
    FieldName::Password,
    FieldName::ConnectData,
    FieldName::Url,
    FieldName::AlternateAddress,
];

// The names of an entry in header order, wherever its block stands.
const ENTRY_NAMES: [FieldName; 3] = [FieldName::Name, FieldName::Data, FieldName::Url];

// The names of what a message says.
fn names_said(said: Message) -> &'static [FieldName]
    ensures { result.now ≡ names_said said }
{
    match said {
        Message::ConnectInfo(values) if values.dnet_version < EXTENDED_FROM => &CONNECT_NAMES[..5],
        Message::ConnectInfo(_) => &CONNECT_NAMES,
        Message::AddPlayer(_, _) | Message::CreateGroup(_, _) => &ENTRY_NAMES,
        _ => &[],
    }
}

// The characters that reading says of a field.
fn characters_of(field: Field) -> u32
    ensures { result ≡ count_of field }
{
    match field {
        Some(span) => span.characters,
        None => 0,
    }
}

// How many fields the message has.
#[tactic(auto, unfolding(crate::specs::FieldList::field_count))]
pub fn count(m: &[u8]) -> usize
    ensures { result ≡ field_count m.now }
{
    match wire_read::read(m) {
        Ok(read) => names_said(read.message).len(),
        Err(_) => 0,
    }
}

// What stands at a place of the message's list of fields; nothing past the last.
pub fn field_at(m: &[u8], place: usize) -> Option<Listed>
    ensures { result ≡ listed_at m.now place }
{
    let read = wire_read::read(m).ok()?;
    let names = names_said(read.message);
    let name = *names.get(place)?;
    Some(Listed {
        name,
        field: read.fields.named(name),
    })
}

// The very part of the message that holds the field at a place, which is promised too; empty where there is none.
pub fn part_at(m: &[u8], place: usize) -> &[u8]
    ensures { Shows m.entry place result }
{
    match field_at(m, place) {
        Some(listed) => wire_read::field(m, listed.name),
        None => &m[..0],
    }
}

// How many characters the text of the field at a place has; 0 where there is none, or it is no text.
#[tactic(auto, unfolding(crate::specs::FieldList::count_at))]
pub fn characters_at(m: &[u8], place: usize) -> u32
    ensures { result ≡ count_at m.now place }
{
    match field_at(m, place) {
        Some(listed) => characters_of(listed.field),
        None => 0,
    }
}

// The next place. The last of all places stays, so that no reader wraps.
#[tactic(auto, unfolding(crate::specs::FieldList::place_after))]
fn place_after(place: usize) -> usize
    ensures { result ≡ place_after place }
{
    place.saturating_add(1)
}

// A reader at the message's first field.
pub fn open<'a>(message: &'a [u8]) -> FieldReader<'a>
    ensures { (result.message ≡ message.entry) × (result.place ≡ 0) }
{
    FieldReader { message, place: 0 }
}

// The very part of the reader's message that holds the field at its place, which is promised too.
pub fn shown<'a>(r: FieldReader<'a>) -> &'a [u8]
    ensures { Shows r.entry.message r.entry.place result }
{
    part_at(r.message, r.place)
}

// How many characters the text has that is shown.
pub fn characters<'a>(r: FieldReader<'a>) -> u32
    ensures { result ≡ count_at r.entry.message.now r.entry.place }
{
    characters_at(r.message, r.place)
}

// The reader at the next field.
pub fn next<'a>(r: FieldReader<'a>) -> FieldReader<'a>
    ensures { (result.message ≡ r.entry.message) × (result.place ≡ place_after r.entry.place) }
{
    FieldReader {
        message: r.message,
        place: place_after(r.place),
    }
}
