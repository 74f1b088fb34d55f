// Player connect info (0xC1), plain and extended: its checks, its numbers and its fields.
// Numbers and fields are read after the checks, which see that the fixed part is whole.
#![tactic(auto)]

ghost use Rattle.std.specs.Prelude.{◌≡◌, length, ℕ, ◌+◌, ◌≤◌, IfOk};
ghost use Rattle.refusal.specs.Numbers.{no_of};
ghost use Rattle.wire_field.specs.Words.{type_word, whole};
ghost use Rattle.wire_layout.specs.Layout.{plain_end, connect_pairs, connect_layout, connect_absence};
ghost use Rattle.wire_layout.specs.Checks.{pairs_no, layout_no, layout_fields};
ghost use Rattle.wire_connect.specs.Connect.{guid_size, guid_bytes, guid_at, connect_values, connect_info, connect_fields};
ghost use Rattle.wire_connect.specs.Inner.{FixedWhole, ConnectCounted};

use refusal::Refusal;
use wire_field::{Absence, Field, FieldName, Fields, Position, TYPE_WORD};
use wire_layout::{
    EXTENDED_CONNECT_INFO_END, EXTENDED_FROM, FIRST, PLAIN_CONNECT_INFO_END, SECOND, WORD,
    field_at, flags_check, pair_check, word_at, word_within,
};

// A GUID: its 16 bytes as they stand in the message, as four little-endian words.
#[repr(C)]
#[derive(Clone, Copy)]
pub struct Guid(pub u32, pub u32, pub u32, pub u32);

// The bytes of a GUID.
const GUID: usize = 4 * WORD;

impl Guid {
    // Its bytes.
    pub fn bytes(self) -> [u8; GUID]
        ensures { result ≡ guid_bytes self }
    {
        let words: [u32; 4] = [self.0, self.1, self.2, self.3];
        let mut out = [0u8; GUID];
        byte_words::put_le_words(&mut out, 0, &words);
        out
    }
}

// What a player connect info message says, besides its fields.
#[repr(C)]
#[derive(Clone, Copy)]
pub struct ConnectInfo {
    pub flags: u32,
    pub dnet_version: u32,
    pub instance: Guid,
    pub application: Guid,
}

// Where the offsets of its fields stand, and its GUIDs.
const NAME: Position = Position(12);

const DATA: Position = Position(20);

const PASSWORD: Position = Position(28);

const CONNECT_DATA: Position = Position(36);

const URL: Position = Position(44);

const INSTANCE: Position = Position(52);

const APPLICATION: Position = Position(68);

const ALTERNATE_ADDRESS: Position = PLAIN_CONNECT_INFO_END;

// A field is absent where its offset or its size is 0, and its pair is checked no further.
const ABSENCE: Absence = Absence::Either;

// How many characters its name, its password and its URL have, as its checks count them.
#[derive(Clone, Copy)]
pub struct ConnectCounts {
    pub name: u32,
    pub password: u32,
    pub url: u32,
}

// Checks 9 and 10 of the five fields that both forms have.
fn connect_pairs(rest: &[u8], fixed: Position) -> Result<ConnectCounts, Refusal>
    requires { plain_end ≤ type_word + length rest.now }
    ensures number { (kind : ℕ) → no_of result ≡ pairs_no connect_absence (whole kind rest.now) fixed.0 connect_pairs }
    ensures counts { (kind : ℕ) → IfOk result (λ c. ConnectCounted c (whole kind rest.now)) }
{
    let name = pair_check(ABSENCE, FieldName::Name, rest, fixed, NAME)?;
    pair_check(ABSENCE, FieldName::Data, rest, fixed, DATA)?;
    let password = pair_check(ABSENCE, FieldName::Password, rest, fixed, PASSWORD)?;
    pair_check(ABSENCE, FieldName::ConnectData, rest, fixed, CONNECT_DATA)?;
    let url = pair_check(ABSENCE, FieldName::Url, rest, fixed, URL)?;
    Ok(ConnectCounts {
        name,
        password,
        url,
    })
}

// Checks 4 to 10 of a form whose fixed part ends at fixed, but for the alternate address.
fn form_check(rest: &[u8], fixed: Position) -> Result<ConnectCounts, Refusal>
    requires { plain_end ≤ fixed.0 }
    ensures number { (kind : ℕ) → no_of result ≡ layout_no (connect_layout connect_absence fixed.0 connect_pairs) (whole kind rest.now) }
    ensures counts { (kind : ℕ) → IfOk result (λ c. ConnectCounted c (whole kind rest.now)) }
{
    if rest.len() < fixed.0 - TYPE_WORD {
        return Err(Refusal::UnderFixedPart);
    }
    flags_check(word_within(rest, FIRST))?;
    connect_pairs(rest, fixed)
}

// Checks 4 to 10.
pub fn connect_check(rest: &[u8]) -> Result<ConnectCounts, Refusal>
    ensures number { (kind : ℕ) → no_of result ≡ layout_no (connect_info (whole kind rest.now)) (whole kind rest.now) }
    ensures counts { (kind : ℕ) → IfOk result (λ c. ConnectCounted c (whole kind rest.now)) }
{
    if word_at(rest, SECOND) < EXTENDED_FROM {
        return form_check(rest, PLAIN_CONNECT_INFO_END);
    }
    let five = form_check(rest, EXTENDED_CONNECT_INFO_END)?;
    pair_check(
        ABSENCE,
        FieldName::AlternateAddress,
        rest,
        EXTENDED_CONNECT_INFO_END,
        ALTERNATE_ADDRESS,
    )?;
    Ok(five)
}

const TWO_WORDS: usize = 2 * WORD;

const THREE_WORDS: usize = 3 * WORD;

// The GUID at a position.
fn guid_at(rest: &[u8], at: Position) -> Guid
    requires type_word_le_at { type_word ≤ at.0 }
    requires guid_size_bound { at.0 + guid_size ≤ type_word + length rest.now }
    ensures { (kind : ℕ) → result ≡ guid_at (whole kind rest.now) at.0 }
{
    let p = at.0;
    Guid(
        word_within(rest, at),
        word_within(rest, Position(p + WORD)),
        word_within(rest, Position(p + TWO_WORDS)),
        word_within(rest, Position(p + THREE_WORDS)),
    )
}

// Its numbers and GUIDs, of a message that has its whole fixed part.
pub fn connect_values(rest: &[u8]) -> ConnectInfo
    requires { plain_end ≤ type_word + length rest.now }
    ensures { (kind : ℕ) → result ≡ connect_values (whole kind rest.now) }
{
    ConnectInfo {
        flags: word_within(rest, FIRST),
        dnet_version: word_within(rest, SECOND),
        instance: guid_at(rest, INSTANCE),
        application: guid_at(rest, APPLICATION),
    }
}

// The alternate address, absent in the plain form.
fn alternate_address(rest: &[u8]) -> Field
    requires { FixedWhole rest.now }
    ensures { (kind : ℕ) → result ≡ (layout_fields (connect_info (whole kind rest.now)) (whole kind rest.now)).alternate_address }
{
    if word_at(rest, SECOND) < EXTENDED_FROM {
        return None;
    }
    field_at(ABSENCE, rest, ALTERNATE_ADDRESS, 0)
}

// Its fields, of a message that has its whole fixed part, and of the characters that its checks answered.
pub fn connect_fields(rest: &[u8], counts: ConnectCounts) -> Fields
    requires plain_end_bound { plain_end ≤ type_word + length rest.now }
    requires fixed_whole { FixedWhole rest.now }
    ensures { (kind : ℕ) → ConnectCounted counts (whole kind rest.now) → result ≡ connect_fields (whole kind rest.now) }
{
    Fields {
        name: field_at(ABSENCE, rest, NAME, counts.name),
        data: field_at(ABSENCE, rest, DATA, 0),
        password: field_at(ABSENCE, rest, PASSWORD, counts.password),
        connect_data: field_at(ABSENCE, rest, CONNECT_DATA, 0),
        url: field_at(ABSENCE, rest, URL, counts.url),
        alternate_address: alternate_address(rest),
    }
}
