// Writing messages into a buffer that the caller lends. A refused writer touches no byte; bytes beyond the message stay.
// The public writers take flags and the bytes beside them, as C hands them over (docs/PROMISES.md); inside, each field is an Option.
// A message without fields is its words, and whether an id is 0. The sizes of given fields are taken once: fixed part, total and
// refusals are computed from them, and only the test of the forms and the copying look at the bytes.
#![tactic(auto)]

ghost use Rattle.std.specs.Prelude.{◌≡◌, ◌≤◌, length, ltb};
ghost use Rattle.wire_read.specs.declared.Message.TheVariants as said;
ghost use Rattle.wire_layout.specs.Layout.{most_bytes, extended_from};
ghost use Rattle.byte_words.specs.Bytes.{little, words};
ghost use Rattle.wire_draft.specs.Draft.{membership_change_words, membership_change_bad, pair_words, connect_head, connect_tail};
ghost use Rattle.wire_draft.specs.Given.{exact_draft, add_player_draft, create_group_draft, connect_info_draft};
ghost use Rattle.wire_draft.specs.Inner.{bytes_in, six_pairs, size_named, answer_of, buffer_after, sent_of, sent_into};
ghost use Rattle.wire_draft.specs.Write.{written_of, buffer_of};
ghost use Rattle.wire_write.specs.Form.{form_by};
ghost use Rattle.wire_write.specs.Inner.{entry_message_words, entry_bad};

use wire_connect::ConnectInfo;
use wire_draft::{
    ConnectInfoGiven, EntryGiven, Given, Sizes, Written, after, block_words, stated, write_exact,
    write_message,
};
use wire_entry::EntryBlock;
use wire_field::Offset;
use wire_layout::{
    ADD_PLAYER_FIELDS, CREATE_GROUP_FIELDS, EXTENDED_CONNECT_INFO_FIELDS, EXTENDED_FROM,
    PLAIN_CONNECT_INFO_FIELDS,
};
use wire_read::{CreateGroup, DestroyGroup, DestroyPlayer, MembershipChange, RequestAddToGroup};

// Writes a destroy player message (0xD1) at the buffer's start.
pub fn write_destroy_player(buf: &mut [u8], values: DestroyPlayer) -> Written
    ensures answer { result ≡ written_of (length buf.old) (exact_draft (said.DestroyPlayer values 0)) }
    ensures buffer { buf.new ≡ buffer_of buf.old (exact_draft (said.DestroyPlayer values 0)) }
{
    let ws: [u32; 5] = [
        wire_layout::DESTROY_PLAYER,
        values.dpnid,
        values.version,
        0,
        values.reason,
    ];
    write_exact(buf, values.dpnid == 0, &ws)
}

// Writes a request to add a player to a group (0xD3) at the buffer's start.
pub fn write_request_add_to_group(buf: &mut [u8], values: RequestAddToGroup) -> Written
    ensures answer { result ≡ written_of (length buf.old) (exact_draft (said.RequestAddToGroup values)) }
    ensures buffer { buf.new ≡ buffer_of buf.old (exact_draft (said.RequestAddToGroup values)) }
{
    let ws: [u32; 4] = [
        wire_layout::REQUEST_ADD_TO_GROUP,
        values.context,
        values.group,
        values.player,
    ];
    write_exact(buf, (values.group == 0) | (values.player == 0), &ws)
}

// Writes a destroy group message (0xD8) at the buffer's start.
pub fn write_destroy_group(buf: &mut [u8], values: DestroyGroup) -> Written
    ensures answer { result ≡ written_of (length buf.old) (exact_draft (said.DestroyGroup values 0)) }
    ensures buffer { buf.new ≡ buffer_of buf.old (exact_draft (said.DestroyGroup values 0)) }
{
    let ws: [u32; 6] = [
        wire_layout::DESTROY_GROUP,
        values.group,
        values.version,
        0,
        values.requesting,
        values.context,
    ];
    write_exact(buf, values.group == 0, &ws)
}

// Writes a message that changes a membership, of either type word.
fn write_membership_change(buf: &mut [u8], kind: u32, change: MembershipChange) -> Written
    ensures answer { result ≡ answer_of (membership_change_bad change) (length buf.old)
        (words little (membership_change_words kind change 0)) }
    ensures buffer { buf.new ≡ buffer_after (membership_change_bad change) buf.old
        (words little (membership_change_words kind change 0)) }
{
    let ws: [u32; 7] = [
        kind,
        change.group,
        change.player,
        change.version,
        0,
        change.requesting,
        change.context,
    ];
    write_exact(buf, (change.group == 0) | (change.player == 0), &ws)
}

// Writes an add player to group message (0xD9) at the buffer's start.
pub fn write_add_to_group(buf: &mut [u8], values: MembershipChange) -> Written
    ensures answer { result ≡ written_of (length buf.old) (exact_draft (said.AddToGroup values 0)) }
    ensures buffer { buf.new ≡ buffer_of buf.old (exact_draft (said.AddToGroup values 0)) }
{
    write_membership_change(buf, wire_layout::ADD_TO_GROUP, values)
}

// Writes a delete player from group message (0xDA) at the buffer's start.
pub fn write_delete_from_group(buf: &mut [u8], values: MembershipChange) -> Written
    ensures answer { result ≡ written_of (length buf.old) (exact_draft (said.DeleteFromGroup values 0)) }
    ensures buffer { buf.new ≡ buffer_of buf.old (exact_draft (said.DeleteFromGroup values 0)) }
{
    write_membership_change(buf, wire_layout::DELETE_FROM_GROUP, values)
}

// Writes at the buffer's start the words before an entry block, three at most, the block, and the fields that are given, laid out from an
// offset within a message.
fn write_entry(
    buf: &mut [u8],
    head: &[u32],
    first: Offset,
    entry: EntryBlock,
    given: &Given<'_>,
) -> Written
    requires head_len_bound { length head.now ≤ 3 }
    requires first_le_most_bytes { first.0 ≤ most_bytes }
    ensures answer { result ≡ sent_of (entry_bad entry given.now) (length buf.old)
        (entry_message_words head.now first.0 entry (bytes_in given.now)) (bytes_in given.now) }
    ensures buffer { buf.new ≡ sent_into (entry_bad entry given.now) buf.old
        (entry_message_words head.now first.0 entry (bytes_in given.now)) (bytes_in given.now) }
{
    let sizes = given.sizes();
    let refused = (entry.dpnid == 0) | given.any_bad();
    let block = block_words(entry, first, sizes);
    write_message(buf, refused, head, &block, sizes, given)
}

// Writes an add player message (0xD0) at the buffer's start, with the fields that are given.
pub fn write_add_player(
    buf: &mut [u8],
    values: EntryBlock,
    has: EntryGiven,
    name: &[u8],
    data: &[u8],
    url: &[u8],
) -> Written
    ensures answer { result ≡ written_of (length buf.old)
        (add_player_draft values has name.now «data».now url.now) }
    ensures buffer { buf.new ≡ buffer_of buf.old
        (add_player_draft values has name.now «data».now url.now) }
{
    let head: [u32; 1] = [wire_layout::ADD_PLAYER];
    let given = has.fields(name, data, url);
    write_entry(buf, &head, ADD_PLAYER_FIELDS, values, &given)
}

// Writes a create group message (0xD7) at the buffer's start, with the fields that are given.
pub fn write_create_group(
    buf: &mut [u8],
    values: CreateGroup,
    has: EntryGiven,
    name: &[u8],
    data: &[u8],
    url: &[u8],
) -> Written
    ensures answer { result ≡ written_of (length buf.old)
        (create_group_draft values has name.now «data».now url.now) }
    ensures buffer { buf.new ≡ buffer_of buf.old
        (create_group_draft values has name.now «data».now url.now) }
{
    let head: [u32; 3] = [wire_layout::CREATE_GROUP, values.requesting, values.context];
    let given = has.fields(name, data, url);
    write_entry(buf, &head, CREATE_GROUP_FIELDS, values.entry, &given)
}

// What the form of a connect info message says: the offset of its first field, and how many words of its tail it has.
#[derive(Clone, Copy)]
struct ConnectForm {
    first: Offset,
    tail: usize,
}

// The form that a DNET version asks for.
#[tactic(auto, unfolding(wire_layout::specs::Layout::connect_layout))]
fn form_of(dnet_version: u32) -> ConnectForm
    ensures form { result ≡ form_by (ltb dnet_version extended_from) }
    ensures small { result.first.0 ≤ most_bytes }
    ensures within { result.tail ≤ 10 }
{
    if dnet_version < EXTENDED_FROM {
        return ConnectForm {
            first: PLAIN_CONNECT_INFO_FIELDS,
            tail: 8,
        };
    }
    ConnectForm {
        first: EXTENDED_CONNECT_INFO_FIELDS,
        tail: 10,
    }
}

// The words of a connect info message up to its GUIDs.
#[tactic(auto, unfolding(wire_layout::specs::Layout::connect_pairs, wire_layout::specs::Layout::alternate_pair))]
fn connect_head(values: ConnectInfo, first: Offset, sizes: Sizes) -> [u32; 13]
    requires { first.0 ≤ most_bytes }
    ensures { result ≡ connect_head values (pair_words first.0 (size_named sizes) six_pairs) }
{
    let url = after(first, sizes.alternate_address);
    let connect_data = after(url, sizes.url);
    let password = after(connect_data, sizes.connect_data);
    let data = after(password, sizes.password);
    let name = after(data, sizes.data);
    [
        wire_layout::CONNECT_INFO,
        values.flags,
        values.dnet_version,
        stated(sizes.name, name),
        sizes.name as u32,
        stated(sizes.data, data),
        sizes.data as u32,
        stated(sizes.password, password),
        sizes.password as u32,
        stated(sizes.connect_data, connect_data),
        sizes.connect_data as u32,
        stated(sizes.url, url),
        sizes.url as u32,
    ]
}

// Its GUIDs, and the pair that the extended form has after them.
#[tactic(auto, unfolding(wire_layout::specs::Layout::connect_pairs, wire_layout::specs::Layout::alternate_pair))]
fn connect_tail(values: ConnectInfo, first: Offset, sizes: Sizes) -> [u32; 10]
    ensures { result ≡ connect_tail values (pair_words first.0 (size_named sizes) six_pairs) }
{
    [
        values.instance.0,
        values.instance.1,
        values.instance.2,
        values.instance.3,
        values.application.0,
        values.application.1,
        values.application.2,
        values.application.3,
        stated(sizes.alternate_address, first),
        sizes.alternate_address as u32,
    ]
}

// Writes a player connect info message (0xC1) at the buffer's start, in the form that its DNET version asks for, with the fields that
// are given.
pub fn write_connect_info(
    buf: &mut [u8],
    values: ConnectInfo,
    has: ConnectInfoGiven,
    name: &[u8],
    data: &[u8],
    password: &[u8],
    connect_data: &[u8],
    url: &[u8],
    alternate_address: &[u8],
) -> Written
    ensures answer { result ≡ written_of (length buf.old)
        (connect_info_draft values has name.now «data».now password.now connect_data.now
        url.now alternate_address.now) }
    ensures buffer { buf.new ≡ buffer_of buf.old
        (connect_info_draft values has name.now «data».now password.now connect_data.now
        url.now alternate_address.now) }
{
    let form = form_of(values.dnet_version);
    let given = has.fields(name, data, password, connect_data, url, alternate_address);
    let sizes = given.sizes();
    let misplaced = has.alternate_address & (values.dnet_version < EXTENDED_FROM);
    let flags = wire_layout::flags_check(values.flags).is_err();
    let head = connect_head(values, form.first, sizes);
    let tail = connect_tail(values, form.first, sizes);
    let refused = misplaced | (flags | given.any_bad());
    write_message(buf, refused, &head, &tail[..form.tail], sizes, &given)
}
