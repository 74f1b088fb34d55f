// Reading a message, whole or as its type word and the part after it: out comes why it is refused, or what the message says.
#![tactic(auto)]

ghost use Rattle.std.specs.Prelude.{◌≡◌, ℕ, ◌+◌, ◌≤◌, IfOk};
ghost use Rattle.refusal.specs.Numbers.{no_of};
ghost use Rattle.wire_field.specs.Words.{type_word, whole};
ghost use Rattle.wire_layout.specs.Layout.{add_player, destroy_player, request_add_to_group, create_group, destroy_group};
ghost use Rattle.wire_layout.specs.Layout.{exact_layout, membership_change_layout, add_to_group, delete_from_group};
ghost use Rattle.wire_layout.specs.Layout.{connect_info_word, add_player_word, destroy_player_word, request_add_to_group_word};
ghost use Rattle.wire_layout.specs.Layout.{create_group_word, destroy_group_word, add_to_group_word, delete_from_group_word};
ghost use Rattle.wire_layout.specs.Checks.{layout_no};
ghost use Rattle.wire_exact.specs.Ids.{ids_of, IdsAfter};
ghost use Rattle.wire_connect.specs.Connect.{connect_info};
ghost use Rattle.wire_read.specs.Values.{connect_info_of, add_player_of, destroy_player_of, request_add_to_group_of};
ghost use Rattle.wire_read.specs.Values.{create_group_of, destroy_group_of, add_to_group_of, delete_from_group_of};
ghost use Rattle.wire_read.specs.Values.{membership_change_of, membership_change_not_used};
ghost use Rattle.wire_read.specs.Inner.{six_words, without_fields};
ghost use Rattle.wire_read.specs.Read.{answer, by_type, reading_of, number_by, fields_of, no_fields};
ghost use Rattle.wire_read.specs.Read.{field_part, field_start, field_place};

use byte_words::le32;
use refusal::{Reason, Refusal};
use wire_connect::ConnectInfo;
use wire_entry::EntryBlock;
use wire_exact::exact_check;
use wire_field::{FieldName, Fields, Position, TYPE_WORD};
use wire_layout::{
    ADD_PLAYER, ADD_PLAYER_END, ADD_TO_GROUP, CONNECT_INFO, CREATE_GROUP, CREATE_GROUP_END,
    DELETE_FROM_GROUP, DESTROY_GROUP, DESTROY_GROUP_END, DESTROY_PLAYER, DESTROY_PLAYER_END, FIFTH,
    FIRST, FOURTH, MEMBERSHIP_CHANGE_END, MOST_BYTES, REQUEST_ADD_TO_GROUP,
    REQUEST_ADD_TO_GROUP_END, SECOND, SIXTH, THIRD, word_at,
};

// What a destroy player message (0xD1) says.
#[repr(C)]
#[derive(Clone, Copy)]
pub struct DestroyPlayer {
    pub dpnid: u32,
    pub version: u32,
    pub reason: u32,
}

// What a request to add a player to a group (0xD3) says.
#[repr(C)]
#[derive(Clone, Copy)]
pub struct RequestAddToGroup {
    pub context: u32,
    pub group: u32,
    pub player: u32,
}

// What a create group message (0xD7) says.
#[repr(C)]
#[derive(Clone, Copy)]
pub struct CreateGroup {
    pub requesting: u32,
    pub context: u32,
    pub entry: EntryBlock,
}

// What a destroy group message (0xD8) says.
#[repr(C)]
#[derive(Clone, Copy)]
pub struct DestroyGroup {
    pub group: u32,
    pub version: u32,
    pub requesting: u32,
    pub context: u32,
}

// What a message says that adds a player to a group (0xD9) or deletes one from it (0xDA).
#[repr(C)]
#[derive(Clone, Copy)]
pub struct MembershipChange {
    pub group: u32,
    pub player: u32,
    pub version: u32,
    pub requesting: u32,
    pub context: u32,
}

// What a message says, the word that is not used beside it.
#[derive(Clone, Copy)]
pub enum Message {
    ConnectInfo(ConnectInfo),
    AddPlayer(EntryBlock, u32),
    DestroyPlayer(DestroyPlayer, u32),
    RequestAddToGroup(RequestAddToGroup),
    CreateGroup(CreateGroup, u32),
    DestroyGroup(DestroyGroup, u32),
    AddToGroup(MembershipChange, u32),
    DeleteFromGroup(MembershipChange, u32),
}

// What a message that was read says, and its fields.
#[derive(Clone, Copy)]
pub struct ReadMessage {
    pub message: Message,
    pub fields: Fields,
}

// What reading answers.
pub type Reading = Result<ReadMessage, Refusal>;

pub fn no_fields() -> Fields
    ensures { result ≡ no_fields }
{
    Fields {
        name: None,
        data: None,
        password: None,
        connect_data: None,
        url: None,
        alternate_address: None,
    }
}

// The number of a reading: that of what a message is refused with, 0 of one that was read.
pub fn number_of<E: Reason>(reading: &Result<ReadMessage, E>) -> u32
    ensures { result ≡ number_by E.said reading.now }
{
    match reading {
        Ok(_) => refusal::ACCEPTED,
        Err(why) => why.as_number(),
    }
}

// The fields of a reading; all absent of a refused message and of a type that has none.
pub fn fields_of<E>(reading: &Result<ReadMessage, E>) -> Fields
    ensures { result ≡ fields_of reading.now }
{
    match reading {
        Ok(read) => read.fields,
        Err(_) => no_fields(),
    }
}

// A message that has no fields.
fn without_fields(message: Message) -> ReadMessage
    ensures { result ≡ without_fields message }
{
    ReadMessage {
        message,
        fields: no_fields(),
    }
}

// Checks a message of fixed length. Its first six words after the type word; those past the end are 0.
fn exact_words(rest: &[u8], fixed: Position, ids: &[Position]) -> Result<[u32; 6], Refusal>
    requires type_word_le_fixed { type_word ≤ fixed.0 }
    requires ids_after { IdsAfter ids.now }
    ensures number { (kind : ℕ) → no_of result ≡ layout_no (exact_layout kind fixed.0 (ids_of ids.now)) (whole kind rest.now) }
    ensures words { (kind : ℕ) → IfOk result (λ w. w ≡ six_words (whole kind rest.now)) }
{
    exact_check(rest, fixed, ids)?;
    Ok([
        word_at(rest, FIRST),
        word_at(rest, SECOND),
        word_at(rest, THIRD),
        word_at(rest, FOURTH),
        word_at(rest, FIFTH),
        word_at(rest, SIXTH),
    ])
}

fn read_connect_info(rest: &[u8]) -> Reading
    ensures { result ≡ answer (connect_info (whole connect_info_word rest.now)) connect_info_of (whole connect_info_word rest.now) }
{
    let counts = wire_connect::connect_check(rest)?;
    let values = wire_connect::connect_values(rest);
    Ok(ReadMessage {
        message: Message::ConnectInfo(values),
        fields: wire_connect::connect_fields(rest, counts),
    })
}

fn read_add_player(rest: &[u8]) -> Reading
    ensures { result ≡ answer add_player add_player_of (whole add_player_word rest.now) }
{
    let counts = wire_entry::entry_check(rest, FIRST, ADD_PLAYER_END)?;
    let entry = wire_entry::entry_at(rest, FIRST);
    let not_used = wire_entry::entry_not_used(rest, FIRST);
    Ok(ReadMessage {
        message: Message::AddPlayer(entry, not_used),
        fields: wire_entry::entry_fields(rest, FIRST, counts),
    })
}

fn read_destroy_player(rest: &[u8]) -> Reading
    ensures { result ≡ answer destroy_player destroy_player_of (whole destroy_player_word rest.now) }
{
    let w = exact_words(rest, DESTROY_PLAYER_END, &[FIRST])?;
    let values = DestroyPlayer {
        dpnid: w[0],
        version: w[1],
        reason: w[3],
    };
    Ok(without_fields(Message::DestroyPlayer(values, w[2])))
}

fn read_request_add_to_group(rest: &[u8]) -> Reading
    ensures { result ≡ answer request_add_to_group request_add_to_group_of (whole request_add_to_group_word rest.now) }
{
    let w = exact_words(rest, REQUEST_ADD_TO_GROUP_END, &[SECOND, THIRD])?;
    let values = RequestAddToGroup {
        context: w[0],
        group: w[1],
        player: w[2],
    };
    Ok(without_fields(Message::RequestAddToGroup(values)))
}

fn read_create_group(rest: &[u8]) -> Reading
    ensures { result ≡ answer create_group create_group_of (whole create_group_word rest.now) }
{
    let counts = wire_entry::entry_check(rest, THIRD, CREATE_GROUP_END)?;
    let values = CreateGroup {
        requesting: word_at(rest, FIRST),
        context: word_at(rest, SECOND),
        entry: wire_entry::entry_at(rest, THIRD),
    };
    let not_used = wire_entry::entry_not_used(rest, THIRD);
    Ok(ReadMessage {
        message: Message::CreateGroup(values, not_used),
        fields: wire_entry::entry_fields(rest, THIRD, counts),
    })
}

fn read_destroy_group(rest: &[u8]) -> Reading
    ensures { result ≡ answer destroy_group destroy_group_of (whole destroy_group_word rest.now) }
{
    let w = exact_words(rest, DESTROY_GROUP_END, &[FIRST])?;
    let values = DestroyGroup {
        group: w[0],
        version: w[1],
        requesting: w[3],
        context: w[4],
    };
    Ok(without_fields(Message::DestroyGroup(values, w[2])))
}

// Checks a message that changes a membership: what it says, and its word that is not used.
fn membership_change(rest: &[u8]) -> Result<(MembershipChange, u32), Refusal>
    ensures number { (kind : ℕ) → no_of result ≡ layout_no (membership_change_layout kind) (whole kind rest.now) }
    ensures said { (kind : ℕ) → IfOk result (λ c. c.0 ≡ membership_change_of (whole kind rest.now)) }
    ensures not_used { (kind : ℕ) → IfOk result (λ c. c.1 ≡ membership_change_not_used (whole kind rest.now)) }
{
    let w = exact_words(rest, MEMBERSHIP_CHANGE_END, &[FIRST, SECOND])?;
    let values = MembershipChange {
        group: w[0],
        player: w[1],
        version: w[2],
        requesting: w[4],
        context: w[5],
    };
    Ok((values, w[3]))
}

// This and the next differ by the variant alone, which one function for both would have to be given: what they share is `membership_change`.
fn read_add_to_group(rest: &[u8]) -> Reading
    ensures { result ≡ answer add_to_group add_to_group_of (whole add_to_group_word rest.now) }
{
    let (values, not_used) = membership_change(rest)?;
    Ok(without_fields(Message::AddToGroup(values, not_used)))
}

fn read_delete_from_group(rest: &[u8]) -> Reading
    ensures { result ≡ answer delete_from_group delete_from_group_of (whole delete_from_group_word rest.now) }
{
    let (values, not_used) = membership_change(rest)?;
    Ok(without_fields(Message::DeleteFromGroup(values, not_used)))
}

// Reads a message of at most MOST_BYTES bytes by its type word.
fn by_kind(kind: u32, rest: &[u8]) -> Reading
    ensures { result ≡ by_type kind (whole kind rest.now) }
{
    match kind {
        CONNECT_INFO => read_connect_info(rest),
        ADD_PLAYER => read_add_player(rest),
        DESTROY_PLAYER => read_destroy_player(rest),
        REQUEST_ADD_TO_GROUP => read_request_add_to_group(rest),
        CREATE_GROUP => read_create_group(rest),
        DESTROY_GROUP => read_destroy_group(rest),
        ADD_TO_GROUP => read_add_to_group(rest),
        DELETE_FROM_GROUP => read_delete_from_group(rest),
        _ => Err(Refusal::TypeNotListed),
    }
}

// Reads the message of a type word and the part after it.
pub fn read_after(kind: u32, rest: &[u8]) -> Reading
    ensures { result ≡ reading_of (whole kind rest.now) }
{
    if MOST_BYTES - TYPE_WORD < rest.len() {
        return Err(Refusal::MessageTooLong);
    }
    by_kind(kind, rest)
}

// Reads a whole message.
pub fn read(m: &[u8]) -> Reading
    ensures { result ≡ reading_of m.now }
{
    if m.len() < TYPE_WORD {
        return Err(Refusal::NoTypeWord);
    }
    let kind = le32(m, 0);
    read_after(kind, &m[TYPE_WORD..])
}

// The very part of a message that holds a field, terminator included; the empty part of an absent field, of one that the type
// does not have, and of a refused message. The part lies in the slice that was given, and its place there is promised.
pub fn field_after(kind: u32, rest: &[u8], name: FieldName) -> &[u8]
    ensures result_value { result.now ≡ field_part name (whole kind rest.now) }
    ensures place { result.ref_ptr ≡ (rest.entry.ref_ptr.0, field_start name (whole kind rest.now) + rest.entry.ref_ptr.1) }
{
    let fields = fields_of(&read_after(kind, rest));
    wire_field::part_of(rest, fields.named(name))
}

// The same of a whole message.
pub fn field(m: &[u8], name: FieldName) -> &[u8]
    ensures result_value { result.now ≡ field_part name m.now }
    ensures place { result.ref_ptr ≡ (m.entry.ref_ptr.0, field_place name m.now + m.entry.ref_ptr.1) }
{
    if m.len() < TYPE_WORD {
        return &m[..0];
    }
    let kind = le32(m, 0);
    field_after(kind, &m[TYPE_WORD..], name)
}
