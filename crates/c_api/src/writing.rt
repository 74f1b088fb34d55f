// Writing a message.
ghost use Rattle.std.specs.Prelude.{◌≡◌, length};
ghost use Rattle.wire_read.specs.declared.Message.TheVariants as said;
ghost use Rattle.wire_draft.specs.Given.{exact_draft, add_player_draft, create_group_draft, connect_info_draft};
ghost use Rattle.wire_draft.specs.Write.{written_of, buffer_of};
ghost use Rattle.c_types.specs.Answers.{written_data};

use c_types::{WrittenData, written_data};
use wire_connect::ConnectInfo;
use wire_draft::{ConnectInfoGiven, EntryGiven};
use wire_entry::EntryBlock;
use wire_read::{CreateGroup, DestroyGroup, DestroyPlayer, MembershipChange, RequestAddToGroup};

#[unsafe(no_mangle)]
pub extern "C" fn dp8_write_connect_info(
    buffer: &mut [u8],
    values: ConnectInfo,
    given: ConnectInfoGiven,
    name: &[u8],
    data: &[u8],
    password: &[u8],
    connect_data: &[u8],
    url: &[u8],
    alternate_address: &[u8],
) -> WrittenData
    ensures answer { result ≡ written_data (written_of (length buffer.old) (connect_info_draft values given name.now «data».now
        password.now connect_data.now url.now alternate_address.now)) }
    ensures buffer { buffer.new ≡ buffer_of buffer.old (connect_info_draft values given name.now «data».now
        password.now connect_data.now url.now alternate_address.now) }
{
    written_data(wire_write::write_connect_info(
        buffer,
        values,
        given,
        name,
        data,
        password,
        connect_data,
        url,
        alternate_address,
    ))
}

#[unsafe(no_mangle)]
pub extern "C" fn dp8_write_add_player(
    buffer: &mut [u8],
    values: EntryBlock,
    given: EntryGiven,
    name: &[u8],
    data: &[u8],
    url: &[u8],
) -> WrittenData
    ensures answer { result ≡ written_data (written_of (length buffer.old) (add_player_draft values given
        name.now «data».now url.now)) }
    ensures buffer { buffer.new ≡ buffer_of buffer.old (add_player_draft values given
        name.now «data».now url.now) }
{
    written_data(wire_write::write_add_player(buffer, values, given, name, data, url))
}

#[unsafe(no_mangle)]
pub extern "C" fn dp8_write_destroy_player(buffer: &mut [u8], values: DestroyPlayer) -> WrittenData
    ensures answer { result ≡ written_data (written_of (length buffer.old) (exact_draft (said.DestroyPlayer values 0))) }
    ensures buffer { buffer.new ≡ buffer_of buffer.old (exact_draft (said.DestroyPlayer values 0)) }
{
    written_data(wire_write::write_destroy_player(buffer, values))
}

#[unsafe(no_mangle)]
pub extern "C" fn dp8_write_request_add_to_group(
    buffer: &mut [u8],
    values: RequestAddToGroup,
) -> WrittenData
    ensures answer { result ≡ written_data (written_of (length buffer.old) (exact_draft (said.RequestAddToGroup values))) }
    ensures buffer { buffer.new ≡ buffer_of buffer.old (exact_draft (said.RequestAddToGroup values)) }
{
    written_data(wire_write::write_request_add_to_group(buffer, values))
}

#[unsafe(no_mangle)]
pub extern "C" fn dp8_write_create_group(
    buffer: &mut [u8],
    values: CreateGroup,
    given: EntryGiven,
    name: &[u8],
    data: &[u8],
    url: &[u8],
) -> WrittenData
    ensures answer { result ≡ written_data (written_of (length buffer.old) (create_group_draft values given
        name.now «data».now url.now)) }
    ensures buffer { buffer.new ≡ buffer_of buffer.old (create_group_draft values given
        name.now «data».now url.now) }
{
    written_data(wire_write::write_create_group(buffer, values, given, name, data, url))
}

#[unsafe(no_mangle)]
pub extern "C" fn dp8_write_destroy_group(buffer: &mut [u8], values: DestroyGroup) -> WrittenData
    ensures answer { result ≡ written_data (written_of (length buffer.old) (exact_draft (said.DestroyGroup values 0))) }
    ensures buffer { buffer.new ≡ buffer_of buffer.old (exact_draft (said.DestroyGroup values 0)) }
{
    written_data(wire_write::write_destroy_group(buffer, values))
}

#[unsafe(no_mangle)]
pub extern "C" fn dp8_write_add_to_group(buffer: &mut [u8], values: MembershipChange) -> WrittenData
    ensures answer { result ≡ written_data (written_of (length buffer.old) (exact_draft (said.AddToGroup values 0))) }
    ensures buffer { buffer.new ≡ buffer_of buffer.old (exact_draft (said.AddToGroup values 0)) }
{
    written_data(wire_write::write_add_to_group(buffer, values))
}

#[unsafe(no_mangle)]
pub extern "C" fn dp8_write_delete_from_group(
    buffer: &mut [u8],
    values: MembershipChange,
) -> WrittenData
    ensures answer { result ≡ written_data (written_of (length buffer.old) (exact_draft (said.DeleteFromGroup values 0))) }
    ensures buffer { buffer.new ≡ buffer_of buffer.old (exact_draft (said.DeleteFromGroup values 0)) }
{
    written_data(wire_write::write_delete_from_group(buffer, values))
}
