// Fields of varying length: where one lies in its message, whether it may lie there, and what its bytes must be.
// Offsets and positions are two types, and position_of is the only way from the one to the other. A message is its type word and the
// part after it; every contract speaks of the whole message, whatever the type word is.
// The part of a field is taken of one that lies in the message: the checks of reading come first.
#![tactic(auto)]

ghost use Rattle.std.specs.Prelude.{◌≡◌, length, take, drop, ℕ, ◌+◌, ◌-◌, ◌≤◌, IfOk};
ghost use Rattle.refusal.specs.Numbers.{no_of};
ghost use Rattle.wire_field.specs.Words.{type_word, whole};
ghost use Rattle.wire_field.specs.Fields.{position_of, part_of, form_of, well_formed, form_check, place_no, present_no, stated_no};
ghost use Rattle.wire_field.specs.Fields.{absent_by, field_named, Lies, offset_of, count_of, present_field, stated_field};
ghost use Rattle.wire_field.specs.Inner.{field_with};

use refusal::Refusal;
use wire_text::{check_text, check_url};

// The bytes of the type word.
pub const TYPE_WORD: usize = 4;

// Counts from the end of the type word.
#[derive(Clone, Copy)]
pub struct Offset(pub u32);

// Counts from the message's first byte.
#[derive(Clone, Copy)]
pub struct Position(pub usize);

// What a field's bytes must be.
#[derive(Clone, Copy)]
pub enum Form {
    Free,
    Text,
    Url,
}

// Where a present field starts, its size in bytes, and how many characters it has where it is a text.
#[derive(Clone, Copy)]
pub struct Span {
    pub start: Position,
    pub size: u32,
    pub characters: u32,
}

// A field of a message: None where it is absent.
pub type Field = Option<Span>;

// The position that an offset stands for. The sum is of 64 bits, so it never wraps.
pub fn position_of(offset: Offset) -> Position
    ensures { result.0 ≡ (position_of offset).0 }
{
    Position((offset.0 as usize) + TYPE_WORD)
}

// When offset and size say that their field is absent: both 0, or one of them.
#[derive(Clone, Copy)]
pub enum Absence {
    Both,
    Either,
}

#[derive(Clone, Copy)]
pub enum FieldName {
    Name,
    Data,
    Password,
    ConnectData,
    Url,
    AlternateAddress,
}

// The fields of a message. Those that its layout does not have are absent.
#[derive(Clone, Copy)]
pub struct Fields {
    pub name: Field,
    pub data: Field,
    pub password: Field,
    pub connect_data: Field,
    pub url: Field,
    pub alternate_address: Field,
}

impl Fields {
    // The field of a name.
    pub fn named(self, name: FieldName) -> Field
        ensures { result ≡ field_named name self }
    {
        match name {
            FieldName::Name => self.name,
            FieldName::Data => self.data,
            FieldName::Password => self.password,
            FieldName::ConnectData => self.connect_data,
            FieldName::Url => self.url,
            FieldName::AlternateAddress => self.alternate_address,
        }
    }
}

// What the bytes of the field of a name must be.
pub fn form_of(name: FieldName) -> Form
    ensures { result ≡ form_of name }
{
    match name {
        FieldName::Name => Form::Text,
        FieldName::Data => Form::Free,
        FieldName::Password => Form::Text,
        FieldName::ConnectData => Form::Free,
        FieldName::Url => Form::Url,
        FieldName::AlternateAddress => Form::Free,
    }
}

// Checks a field's bytes by its form. What is free is no text, and has no characters.
fn check_form(form: Form, s: &[u8]) -> Option<usize>
    ensures { result ≡ form_check form s.now }
{
    match form {
        Form::Free => Some(0),
        Form::Text => check_text(s),
        Form::Url => check_url(s),
    }
}

// Whether they are what it asks.
pub fn well_formed(form: Form, s: &[u8]) -> bool
    ensures { result ≡ well_formed form s.now }
{
    check_form(form, s).is_some()
}

// Whether an offset and a size say that their field is absent.
fn is_absent(rule: Absence, offset: Offset, size: u32) -> bool
    ensures { result ≡ absent_by rule offset size }
{
    match rule {
        Absence::Both => offset.0 == 0 && size == 0,
        Absence::Either => offset.0 == 0 || size == 0,
    }
}

// The field that an offset and a size state, of so many characters.
pub fn stated_field(rule: Absence, offset: Offset, size: u32, characters: u32) -> Field
    ensures { result ≡ field_with rule offset size characters }
{
    if is_absent(rule, offset, size) {
        return None;
    }
    let start = position_of(offset);
    Some(Span {
        start,
        size,
        characters,
    })
}

// Checks 8 and 9 of a field, by the bytes after the type word. Position and end are compared as positions.
fn place_check(after: usize, fixed: Position, offset: Offset, size: u32) -> Result<(), Refusal>
    ensures { no_of result ≡ place_no (type_word + after) fixed offset size }
{
    if offset.0 == 0 || size == 0 {
        return Err(Refusal::OffsetWithoutSize);
    }
    let start = position_of(offset);
    if start.0 < fixed.0 || after < (offset.0 as usize) + (size as usize) {
        return Err(Refusal::FieldOutOfPlace);
    }
    Ok(())
}

// Checks 8, 9 and 10 of a field that is present, in a message whose fixed part ends at fixed: how many characters it has.
// Its bytes are passed over once.
fn present_check(
    form: Form,
    rest: &[u8],
    fixed: Position,
    offset: Offset,
    size: u32,
) -> Result<u32, Refusal>
    ensures number { (kind : ℕ) → no_of result ≡ present_no form (whole kind rest.now) fixed offset size }
    ensures characters { (kind : ℕ) → IfOk result (λ n. n ≡ count_of (present_field form (whole kind rest.now) offset size)) }
{
    place_check(rest.len(), fixed, offset, size)?;
    let a = offset.0 as usize;
    let e = a + (size as usize);
    match check_form(form, &rest[a..e]) {
        Some(count) => Ok(count as u32),
        None => Err(Refusal::FieldIllFormed),
    }
}

// The same of any field; one that is absent passes. Short, so that it is inlined and an absent field costs two tests.
pub fn stated_check(
    rule: Absence,
    form: Form,
    rest: &[u8],
    fixed: Position,
    offset: Offset,
    size: u32,
) -> Result<u32, Refusal>
    ensures number { (kind : ℕ) → no_of result ≡ stated_no rule form (whole kind rest.now) fixed offset size }
    ensures characters { (kind : ℕ) → IfOk result (λ n. n ≡ count_of (stated_field rule form (whole kind rest.now) offset size)) }
{
    if is_absent(rule, offset, size) {
        return Ok(0);
    }
    present_check(form, rest, fixed, offset, size)
}

// The bytes from a start on.
fn part(rest: &[u8], start: Position, size: u32) -> &[u8]
    requires type_word_le_start { type_word ≤ start.0 }
    requires size_bound { start.0 + size ≤ type_word + length rest.now }
    ensures result_value { result.now ≡ take size (drop (start.0 - type_word) rest.now) }
    ensures place { result.ref_ptr ≡ (rest.entry.ref_ptr.0, (start.0 - type_word) + rest.entry.ref_ptr.1) }
{
    let a = start.0 - TYPE_WORD;
    let e = a + (size as usize);
    &rest[a..e]
}

// The very part of a message that holds a field, terminator included; the empty part where the field is absent. Its place is promised.
pub fn part_of(rest: &[u8], field: Field) -> &[u8]
    requires { Lies (type_word + length rest.now) field }
    ensures by_index { (kind : ℕ) → result.now ≡ part_of (whole kind rest.now) field }
    ensures place { result.ref_ptr ≡ (rest.entry.ref_ptr.0, offset_of field + rest.entry.ref_ptr.1) }
{
    match field {
        None => &rest[..0],
        Some(span) => part(rest, span.start, span.size),
    }
}
