// A message as its type word and the part after it: its words, its fields and their checks, by the positions that a layout states.
// Every contract speaks of the whole message, whatever the type word is.
// Positions have to be behind the type word, as every position of a layout is, and a word that is read without a test has to be whole:
// the check of the fixed part comes first. No type says so of a position: the checks of wire_field and `pair_check` take any as the end of a
// fixed part, and must not ask for more.
#![tactic(auto)]

ghost use Rattle.std.specs.Prelude.{◌≡◌, length, ℕ, ◌+◌, ◌≤◌, IfOk};
ghost use Rattle.refusal.specs.Numbers.{no_of};
ghost use Rattle.wire_field.specs.Words.{type_word, whole, word};
ghost use Rattle.wire_field.specs.Fields.{form_of, count_of};
ghost use Rattle.wire_layout.specs.Checks.{pair_no, field_at, flags_no};
ghost use Rattle.wire_layout.specs.Inner.{field_of};

use byte_words::le32;
use refusal::Refusal;
use wire_field::{
    Absence, Field, FieldName, Offset, Position, TYPE_WORD, form_of, stated_check, stated_field,
};

// The most bytes that a message has.
pub const MOST_BYTES: usize = 16384;

// The bytes of a word.
pub const WORD: usize = 4;

// The bytes of an entry block.
pub const ENTRY_BLOCK: usize = 48;

// The type words: what is read and written. What a message is of, once it is read, is the enum `Message` of wire_read; an enum of the words
// beside it would be turned into that one and back into words, and say nothing more.
pub const CONNECT_INFO: u32 = 0xC1;

pub const ADD_PLAYER: u32 = 0xD0;

pub const DESTROY_PLAYER: u32 = 0xD1;

pub const REQUEST_ADD_TO_GROUP: u32 = 0xD3;

pub const CREATE_GROUP: u32 = 0xD7;

pub const DESTROY_GROUP: u32 = 0xD8;

pub const ADD_TO_GROUP: u32 = 0xD9;

pub const DELETE_FROM_GROUP: u32 = 0xDA;

// The words after the type word, by position.
pub const FIRST: Position = Position(TYPE_WORD);

pub const SECOND: Position = Position(TYPE_WORD + WORD);

pub const THIRD: Position = Position(TYPE_WORD + 2 * WORD);

pub const FOURTH: Position = Position(TYPE_WORD + 3 * WORD);

pub const FIFTH: Position = Position(TYPE_WORD + 4 * WORD);

pub const SIXTH: Position = Position(TYPE_WORD + 5 * WORD);

// The words of a create group message between its type word and its entry block: requesting dpnid, context.
const BEFORE_GROUP: usize = 2 * WORD;

// Where the fixed parts end. That of 0xC1 ends later from a DNET version on.
const PLAIN_END: usize = 84;

const EXTENDED_END: usize = 92;

pub const PLAIN_CONNECT_INFO_END: Position = Position(PLAIN_END);

pub const EXTENDED_CONNECT_INFO_END: Position = Position(EXTENDED_END);

pub const EXTENDED_FROM: u32 = 7;

pub const ADD_PLAYER_END: Position = Position(TYPE_WORD + ENTRY_BLOCK);

pub const DESTROY_PLAYER_END: Position = Position(TYPE_WORD + 4 * WORD);

pub const REQUEST_ADD_TO_GROUP_END: Position = Position(TYPE_WORD + 3 * WORD);

pub const CREATE_GROUP_END: Position = Position(TYPE_WORD + BEFORE_GROUP + ENTRY_BLOCK);

pub const DESTROY_GROUP_END: Position = Position(TYPE_WORD + 5 * WORD);

// Of 0xD9 and 0xDA, which differ by the type word alone.
pub const MEMBERSHIP_CHANGE_END: Position = Position(TYPE_WORD + 6 * WORD);

// The offset of the field that is laid out first: the fixed part less the type word.
pub const PLAIN_CONNECT_INFO_FIELDS: Offset = Offset((PLAIN_END - TYPE_WORD) as u32);

pub const EXTENDED_CONNECT_INFO_FIELDS: Offset = Offset((EXTENDED_END - TYPE_WORD) as u32);

pub const ADD_PLAYER_FIELDS: Offset = Offset(ENTRY_BLOCK as u32);

pub const CREATE_GROUP_FIELDS: Offset = Offset((BEFORE_GROUP + ENTRY_BLOCK) as u32);

// The word at a position, 0 where the message has none there.
pub fn word_at(rest: &[u8], at: Position) -> u32
    requires { type_word ≤ at.0 }
    ensures { (kind : ℕ) → result ≡ word (whole kind rest.now) at.0 }
{
    let i = at.0 - TYPE_WORD;
    le32(rest, i)
}

// The same of a word that the message has, so that nothing is left to test.
pub fn word_within(rest: &[u8], at: Position) -> u32
    requires type_word_le_at { type_word ≤ at.0 }
    requires at_in_bounds { at.0 ≤ length rest.now }
    ensures { (kind : ℕ) → result ≡ word (whole kind rest.now) at.0 }
{
    let i = at.0 - TYPE_WORD;
    let e = i + WORD;
    le32(&rest[i..e], 0)
}

// Checks 8, 9 and 10 of the field whose offset stands at a position and its size right after it: how many characters it has.
pub fn pair_check(
    rule: Absence,
    name: FieldName,
    rest: &[u8],
    fixed: Position,
    at: Position,
) -> Result<u32, Refusal>
    requires type_word_le_at { type_word ≤ at.0 }
    requires at_in_bounds { at.0 + 4 ≤ length rest.now }
    ensures number { (kind : ℕ) → no_of result ≡ pair_no rule (form_of name) (whole kind rest.now) fixed.0 at.0 }
    ensures characters { (kind : ℕ) → IfOk result (λ n. n ≡ count_of (field_at rule (form_of name) (whole kind rest.now) at.0)) }
{
    let offset = word_within(rest, at);
    let size = word_within(rest, Position(at.0 + WORD));
    stated_check(rule, form_of(name), rest, fixed, Offset(offset), size)
}

// The field whose offset stands at a position and its size right after it, of so many characters.
pub fn field_at(rule: Absence, rest: &[u8], at: Position, characters: u32) -> Field
    requires type_word_le_at { type_word ≤ at.0 }
    requires at_in_bounds { at.0 + 4 ≤ length rest.now }
    ensures { (kind : ℕ) → result ≡ field_of rule (whole kind rest.now) at.0 characters }
{
    let offset = word_within(rest, at);
    let size = word_within(rest, Position(at.0 + WORD));
    stated_field(rule, Offset(offset), size, characters)
}

// Checks the flags of a connect info message: client or peer.
#[tactic(auto, unfolding(crate::specs::Checks::flags_no))]
pub fn flags_check(flags: u32) -> Result<(), Refusal>
    ensures { no_of result ≡ flags_no flags }
{
    match flags {
        2 | 4 => Ok(()),
        _ => Err(Refusal::ConnectFlags),
    }
}
