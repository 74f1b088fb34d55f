// The entry block: the 48 bytes that a name table entry takes in a message, at any position of one whose fixed part ends anywhere.
// The block has to stand behind the type word and within the fixed part; its values and fields are read after its checks, which see
// that the fixed part is whole.
#![tactic(auto)]

ghost use Rattle.std.specs.Prelude.{◌≡◌, length, ℕ, ◌+◌, ◌≤◌, IfOk};
ghost use Rattle.refusal.specs.Numbers.{no_of};
ghost use Rattle.wire_field.specs.Words.{type_word, whole};
ghost use Rattle.wire_layout.specs.Layout.{entry_size, entry_pairs, entry_layout, entry_absence};
ghost use Rattle.wire_layout.specs.Checks.{pairs_no, layout_no};
ghost use Rattle.wire_entry.specs.Entry.{entry_at, entry_not_used, entry_fields};
ghost use Rattle.wire_entry.specs.Inner.{EntryCounted};

use refusal::Refusal;
use wire_field::{Absence, FieldName, Fields, Position, TYPE_WORD};
use wire_layout::{WORD, field_at, pair_check, word_within};

// The numbers of an entry block.
#[repr(C)]
#[derive(Clone, Copy)]
pub struct EntryBlock {
    pub dpnid: u32,
    pub owner: u32,
    pub flags: u32,
    pub version: u32,
    pub dnet_version: u32,
}

// How many characters its name and its URL have, as its checks count them.
#[derive(Clone, Copy)]
pub struct EntryCounts {
    pub name: u32,
    pub url: u32,
}

// Where its words stand, from the block's start, and the offsets of its fields.
const OWNER: usize = WORD;

const FLAGS: usize = 2 * WORD;

const VERSION: usize = 3 * WORD;

const NOT_USED: usize = 4 * WORD;

const DNET_VERSION: usize = 5 * WORD;

const NAME: usize = 6 * WORD;

const DATA: usize = 8 * WORD;

const URL: usize = 10 * WORD;

// A field is absent where its offset and its size are both 0.
const ABSENCE: Absence = Absence::Both;

// The numbers of the entry block at a position, which the message has.
pub fn entry_at(rest: &[u8], at: Position) -> EntryBlock
    requires type_word_le_at { type_word ≤ at.0 }
    requires entry_size_bound { at.0 + entry_size ≤ type_word + length rest.now }
    ensures { (kind : ℕ) → result ≡ entry_at (whole kind rest.now) at.0 }
{
    let p = at.0;
    EntryBlock {
        dpnid: word_within(rest, at),
        owner: word_within(rest, Position(p + OWNER)),
        flags: word_within(rest, Position(p + FLAGS)),
        version: word_within(rest, Position(p + VERSION)),
        dnet_version: word_within(rest, Position(p + DNET_VERSION)),
    }
}

// Its word that is not used.
pub fn entry_not_used(rest: &[u8], at: Position) -> u32
    requires type_word_le_at { type_word ≤ at.0 }
    requires entry_size_bound { at.0 + entry_size ≤ type_word + length rest.now }
    ensures { (kind : ℕ) → result ≡ entry_not_used (whole kind rest.now) at.0 }
{
    word_within(rest, Position(at.0 + NOT_USED))
}

// Its fields, of the characters that its checks answered.
pub fn entry_fields(rest: &[u8], at: Position, counts: EntryCounts) -> Fields
    requires type_word_le_at { type_word ≤ at.0 }
    requires entry_size_bound { at.0 + entry_size ≤ type_word + length rest.now }
    ensures { (kind : ℕ) → EntryCounted counts (whole kind rest.now) at.0 → result ≡ entry_fields (whole kind rest.now) at.0 }
{
    let p = at.0;
    Fields {
        name: field_at(ABSENCE, rest, Position(p + NAME), counts.name),
        data: field_at(ABSENCE, rest, Position(p + DATA), 0),
        password: None,
        connect_data: None,
        url: field_at(ABSENCE, rest, Position(p + URL), counts.url),
        alternate_address: None,
    }
}

// Checks 8, 9 and 10 of its fields, in a message whose fixed part ends at fixed.
fn entry_pairs(rest: &[u8], at: Position, fixed: Position) -> Result<EntryCounts, Refusal>
    requires type_word_le_at { type_word ≤ at.0 }
    requires entry_size_bound { at.0 + entry_size ≤ type_word + length rest.now }
    ensures number { (kind : ℕ) → no_of result ≡ pairs_no entry_absence (whole kind rest.now) fixed.0 (entry_pairs at.0) }
    ensures counts { (kind : ℕ) → IfOk result (λ c. EntryCounted c (whole kind rest.now) at.0) }
{
    let p = at.0;
    let name = pair_check(ABSENCE, FieldName::Name, rest, fixed, Position(p + NAME))?;
    pair_check(ABSENCE, FieldName::Data, rest, fixed, Position(p + DATA))?;
    let url = pair_check(ABSENCE, FieldName::Url, rest, fixed, Position(p + URL))?;
    Ok(EntryCounts { name, url })
}

// Checks 4 to 10 of a message that is the entry block at a position, within its fixed part.
pub fn entry_check(rest: &[u8], at: Position, fixed: Position) -> Result<EntryCounts, Refusal>
    requires type_word_le_at { type_word ≤ at.0 }
    requires entry_size_bound { at.0 + entry_size ≤ fixed.0 }
    ensures number { (kind : ℕ) → no_of result ≡ layout_no (entry_layout kind at.0 fixed.0) (whole kind rest.now) }
    ensures counts { (kind : ℕ) → IfOk result (λ c. EntryCounted c (whole kind rest.now) at.0) }
{
    if rest.len() < fixed.0 - TYPE_WORD {
        return Err(Refusal::UnderFixedPart);
    }
    if word_within(rest, at) == 0 {
        return Err(Refusal::IdZero);
    }
    entry_pairs(rest, at, fixed)
}
