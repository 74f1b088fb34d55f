// Reading a message: the answer as one struct, in which all that the message does not have is zero.
ghost use Rattle.std.specs.Prelude.{◌≡◌};
ghost use Rattle.wire_read.specs.declared.Message.TheVariants as message;
ghost use Rattle.c_types.specs.Reading.{part_data, padded, membership_change_values, said_data, data_of, reading_by};

use super::{Part, ReadingData, Said, VALUES};
use refusal::{ACCEPTED, Reason};
use wire_connect::ConnectInfo;
use wire_entry::EntryBlock;
use wire_field::{Field, Fields};
use wire_layout::{
    ADD_PLAYER, ADD_TO_GROUP, CONNECT_INFO, CREATE_GROUP, DELETE_FROM_GROUP, DESTROY_GROUP,
    DESTROY_PLAYER, REQUEST_ADD_TO_GROUP,
};
use wire_read::{CreateGroup, MembershipChange, Message, ReadMessage};

fn part_data(field: Field) -> Part
    ensures { result ≡ part_data field }
{
    match field {
        None => Part {
            present: false,
            start: 0,
            size: 0,
            characters: 0,
        },
        Some(span) => Part {
            present: true,
            start: span.start.0,
            size: span.size as usize,
            characters: span.characters as usize,
        },
    }
}

fn said(kind: u32, version_not_used: u32, values: &[u32; VALUES]) -> Said
    ensures { result ≡ record { kind = kind; values = values.now; version_not_used = version_not_used } }
{
    Said {
        kind,
        values: *values,
        version_not_used,
    }
}

#[tactic(auto, using(wire_connect::proofs::ConnectLaws::connect_kind), unfolding(crate::specs::Reading::said_data))]
fn connect_info(v: ConnectInfo) -> Said
    ensures { result ≡ said_data (message.ConnectInfo v) }
{
    let i = v.instance;
    let a = v.application;
    said(
        CONNECT_INFO,
        0,
        &[
            v.flags,
            v.dnet_version,
            i.0,
            i.1,
            i.2,
            i.3,
            a.0,
            a.1,
            a.2,
            a.3,
        ],
    )
}

#[tactic(auto, unfolding(crate::specs::Reading::said_data, wire_layout::specs::Layout::entry_layout))]
fn add_player(e: EntryBlock, version_not_used: u32) -> Said
    ensures { result ≡ said_data (message.AddPlayer e version_not_used) }
{
    said(
        ADD_PLAYER,
        version_not_used,
        &[
            e.dpnid,
            e.owner,
            e.flags,
            e.version,
            e.dnet_version,
            0,
            0,
            0,
            0,
            0,
        ],
    )
}

#[tactic(auto, unfolding(crate::specs::Reading::said_data, wire_layout::specs::Layout::entry_layout))]
fn create_group(v: CreateGroup, version_not_used: u32) -> Said
    ensures { result ≡ said_data (message.CreateGroup v version_not_used) }
{
    let e = v.entry;
    said(
        CREATE_GROUP,
        version_not_used,
        &[
            v.requesting,
            v.context,
            e.dpnid,
            e.owner,
            e.flags,
            e.version,
            e.dnet_version,
            0,
            0,
            0,
        ],
    )
}

fn membership_change(kind: u32, v: MembershipChange, version_not_used: u32) -> Said
    ensures { result ≡ record { kind = kind; values = padded (membership_change_values v); version_not_used = version_not_used } }
{
    said(
        kind,
        version_not_used,
        &[
            v.group,
            v.player,
            v.version,
            v.requesting,
            v.context,
            0,
            0,
            0,
            0,
            0,
        ],
    )
}

// A type is one line: its type word, the word that is not used, its values, and zeros.
#[tactic(auto, unfolding(crate::specs::Reading::said_data, wire_layout::specs::Layout::exact_layout))]
fn said_data(message: Message) -> Said
    ensures { result ≡ said_data message }
{
    match message {
        Message::ConnectInfo(v) => connect_info(v),
        Message::AddPlayer(e, n) => add_player(e, n),
        Message::DestroyPlayer(v, n) => said(
            DESTROY_PLAYER,
            n,
            &[v.dpnid, v.version, v.reason, 0, 0, 0, 0, 0, 0, 0],
        ),
        Message::RequestAddToGroup(v) => said(
            REQUEST_ADD_TO_GROUP,
            0,
            &[v.context, v.group, v.player, 0, 0, 0, 0, 0, 0, 0],
        ),
        Message::CreateGroup(v, n) => create_group(v, n),
        Message::DestroyGroup(v, n) => said(
            DESTROY_GROUP,
            n,
            &[
                v.group,
                v.version,
                v.requesting,
                v.context,
                0,
                0,
                0,
                0,
                0,
                0,
            ],
        ),
        Message::AddToGroup(v, n) => membership_change(ADD_TO_GROUP, v, n),
        Message::DeleteFromGroup(v, n) => membership_change(DELETE_FROM_GROUP, v, n),
    }
}

#[tactic(auto, unfolding(crate::specs::Reading::data_of))]
fn data_of(number: u32, said: Said, fields: Fields) -> ReadingData
    ensures { result ≡ data_of number said fields }
{
    ReadingData {
        number,
        said,
        name: part_data(fields.name),
        data: part_data(fields.data),
        password: part_data(fields.password),
        connect_data: part_data(fields.connect_data),
        url: part_data(fields.url),
        alternate_address: part_data(fields.alternate_address),
    }
}

#[tactic(auto, unfolding(crate::specs::Reading::reading_by))]
pub fn reading_data<E: Reason>(reading: Result<ReadMessage, E>) -> ReadingData
    ensures { result ≡ reading_by E.said reading }
{
    match reading {
        Ok(read) => data_of(ACCEPTED, said_data(read.message), read.fields),
        Err(why) => data_of(
            why.as_number(),
            said(0, 0, &[0; VALUES]),
            wire_read::no_fields(),
        ),
    }
}
