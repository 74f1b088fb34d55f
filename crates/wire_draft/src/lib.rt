// What the writers share: the fields that a caller gives, their sizes, the words that state them, and a message laid out in a lent buffer.
// The six fields stand in header order. A writer of a type that lacks some of them never gives those.
// Fixed parts and first offsets have to be within a message's size, so that no sum wraps, and the sizes those of the fields that are
// given: the writers see to it. What is copied in has room: that is tested first.
#![tactic(auto)]

ghost use Rattle.std.specs.Prelude.{◌≡◌, ◌++◌, ℕ, ◌+◌, ◌≤◌, length};
ghost use Rattle.byte_words.specs.Bytes.{little, put, words};
ghost use Rattle.wire_field.specs.Fields.{form_of};
ghost use Rattle.wire_layout.specs.Layout.{entry_pairs, most_bytes};
ghost use Rattle.wire_draft.specs.Draft.{laid, lengths, offset_given, block_words, pair_words};
ghost use Rattle.wire_draft.specs.Inner.{connect_info_given, entry_given, bytes_of, bytes_in, is_bad, any_bad};
ghost use Rattle.wire_draft.specs.Inner.{six_pairs, six_space, capped, sizes_of, size_named, sent_of, sent_into, answer_of, buffer_after};

use byte_words::{copy_in, put_le_words};
use refusal::Refusal;
use wire_entry::EntryBlock;
use wire_field::{FieldName, Offset, form_of, well_formed};
use wire_layout::MOST_BYTES;

// Which fields of a connect info message the caller gives. C hands over these flags, and the bytes beside them.
#[repr(C)]
#[derive(Clone, Copy)]
pub struct ConnectInfoGiven {
    pub name: bool,
    pub data: bool,
    pub password: bool,
    pub connect_data: bool,
    pub url: bool,
    pub alternate_address: bool,
}

// Which fields of an add player or create group message the caller gives; as C hands them over too.
#[repr(C)]
#[derive(Clone, Copy)]
pub struct EntryGiven {
    pub name: bool,
    pub data: bool,
    pub url: bool,
}

// The six fields as a writer has them: the bytes of each that is given.
#[derive(Clone, Copy)]
pub struct Given<'a> {
    pub name: Option<&'a [u8]>,
    pub data: Option<&'a [u8]>,
    pub password: Option<&'a [u8]>,
    pub connect_data: Option<&'a [u8]>,
    pub url: Option<&'a [u8]>,
    pub alternate_address: Option<&'a [u8]>,
}

impl ConnectInfoGiven {
    // The fields that it says are given, of the slices beside it.
    pub fn fields<'a>(
        self,
        name: &'a [u8],
        data: &'a [u8],
        password: &'a [u8],
        connect_data: &'a [u8],
        url: &'a [u8],
        alternate_address: &'a [u8],
    ) -> Given<'a>
        ensures { result ≡ connect_info_given self name.entry «data».entry password.entry connect_data.entry
            url.entry alternate_address.entry }
    {
        Given {
            name: self.name.then_some(name),
            data: self.data.then_some(data),
            password: self.password.then_some(password),
            connect_data: self.connect_data.then_some(connect_data),
            url: self.url.then_some(url),
            alternate_address: self.alternate_address.then_some(alternate_address),
        }
    }
}

impl EntryGiven {
    // The fields that it says are given, of the slices beside it.
    pub fn fields<'a>(self, name: &'a [u8], data: &'a [u8], url: &'a [u8]) -> Given<'a>
        ensures { result ≡ entry_given self name.entry «data».entry url.entry }
    {
        Given {
            name: self.name.then_some(name),
            data: self.data.then_some(data),
            password: None,
            connect_data: None,
            url: self.url.then_some(url),
            alternate_address: None,
        }
    }
}

// What a writer answers: how many bytes it wrote, or why it wrote none.
pub type Written = Result<usize, Refusal>;

// The sizes of the fields, 0 where one is not given. A size that no message can hold is OVER.
#[derive(Clone, Copy)]
pub struct Sizes {
    pub name: u16,
    pub data: u16,
    pub password: u16,
    pub connect_data: u16,
    pub url: u16,
    pub alternate_address: u16,
}

const OVER: u16 = (MOST_BYTES + 1) as u16;

// How many bytes a field has, 0 where it is not given.
fn size(field: Option<&[u8]>) -> u16
    ensures { result ≡ capped (length (bytes_of field.entry)) }
{
    match field {
        Some(s) if MOST_BYTES < s.len() => OVER,
        Some(s) => s.len() as u16,
        None => 0,
    }
}

// The bytes of a message whose fixed part has this many. Sizes have 16 bits, so the sum does not wrap.
fn total(fixed: usize, sizes: Sizes) -> usize
    requires { fixed ≤ most_bytes }
    ensures { result ≡ fixed + six_space (size_named sizes) }
{
    let first = (sizes.alternate_address as usize)
        + (sizes.url as usize)
        + (sizes.connect_data as usize);
    let last = (sizes.password as usize) + (sizes.data as usize) + (sizes.name as usize);
    fixed + first + last
}

// The offset right after a field. A first offset and six sizes of 16 bits stay far below the bound.
pub fn after(at: Offset, size: u16) -> Offset
    requires { at.0 ≤ 1000000 }
    ensures { result.0 ≡ at.0 + size }
{
    Offset(at.0 + (size as u32))
}

// The offset that is written of a field, 0 where it is absent.
#[tactic(auto, using(refusal::proofs::CheckLaws::tests))]
pub fn stated(size: u16, at: Offset) -> u32
    ensures { result ≡ offset_given size at.0 }
{
    if size == 0 { 0 } else { at.0 }
}

// The words of an entry block whose fields are laid out from an offset on, wherever the block stands; the word that is not used is 0.
#[tactic(auto, unfolding(wire_layout::specs::Layout::entry_pairs))]
pub fn block_words(entry: EntryBlock, first: Offset, sizes: Sizes) -> [u32; 12]
    requires { first.0 ≤ most_bytes }
    ensures { (at : ℕ) → result ≡ block_words entry 0 ++ pair_words first.0 (size_named sizes) (entry_pairs at) }
{
    let data = after(first, sizes.url);
    let name = after(data, sizes.data);
    [
        entry.dpnid,
        entry.owner,
        entry.flags,
        entry.version,
        0,
        entry.dnet_version,
        stated(sizes.name, name),
        sizes.name as u32,
        stated(sizes.data, data),
        sizes.data as u32,
        stated(sizes.url, first),
        sizes.url as u32,
    ]
}

// Whether a field is given and has no bytes or is one that reading would refuse.
fn is_bad(name: FieldName, field: Option<&[u8]>) -> bool
    ensures { result ≡ is_bad (form_of name) field.entry }
{
    match field {
        Some(s) => s.is_empty() || !well_formed(form_of(name), s),
        None => false,
    }
}

impl Given<'_> {
    // Takes the sizes once: fixed part, total and limits are computed from them.
    #[tactic(auto, unfolding(crate::specs::Inner::sizes_of))]
    pub fn sizes(&self) -> Sizes
        ensures { result ≡ sizes_of (bytes_in self.now) }
    {
        Sizes {
            name: size(self.name),
            data: size(self.data),
            password: size(self.password),
            connect_data: size(self.connect_data),
            url: size(self.url),
            alternate_address: size(self.alternate_address),
        }
    }

    // Whether one of the fields is bad.
    #[tactic(auto, unfolding(crate::specs::Inner::any_bad))]
    pub fn any_bad(&self) -> bool
        ensures { result ≡ any_bad self.now }
    {
        is_bad(FieldName::Name, self.name)
            || is_bad(FieldName::Data, self.data)
            || is_bad(FieldName::Password, self.password)
            || is_bad(FieldName::ConnectData, self.connect_data)
            || is_bad(FieldName::Url, self.url)
            || is_bad(FieldName::AlternateAddress, self.alternate_address)
    }
}

// Copies a field that is given to a place, and answers the place after it.
fn copy_given(buf: &mut [u8], at: usize, field: Option<&[u8]>) -> usize
    requires { at + length (bytes_of field) ≤ length buf.old }
    ensures next { result ≡ at + length (bytes_of field.entry) }
    ensures buffer { buf.new ≡ put buf.old at (bytes_of field.entry) }
{
    match field {
        Some(s) => {
            copy_in(buf, at, s);
            at + s.len()
        }
        None => at,
    }
}

// Lays the fields out from a place on, the last in header order first.
fn copy_fields(buf: &mut [u8], at: usize, given: &Given<'_>)
    requires { at + six_space (lengths (bytes_in given.now)) ≤ length buf.old }
    ensures { buf.new ≡ put buf.old at (laid (bytes_in given.now) six_pairs) }
{
    let url = copy_given(buf, at, given.alternate_address);
    let connect_data = copy_given(buf, url, given.url);
    let password = copy_given(buf, connect_data, given.connect_data);
    let data = copy_given(buf, password, given.password);
    let name = copy_given(buf, data, given.data);
    copy_given(buf, name, given.name);
}

// Writes words alone at the buffer's start, unless they are refused for a reason that is known or have no room.
pub fn write_exact(buf: &mut [u8], refused: bool, ws: &[u32]) -> Written
    ensures answer { result ≡ answer_of refused (length buf.old) (words little ws.now) }
    ensures buffer { buf.new ≡ buffer_after refused buf.old (words little ws.now) }
{
    if refused {
        return Err(Refusal::NotReadable);
    }
    if buf.len() / 4 < ws.len() {
        return Err(Refusal::BufferTooShort);
    }
    put_le_words(buf, 0, ws);
    Ok(4 * ws.len())
}

// Writes two runs of words and the fields after them at the buffer's start, unless they are refused for a reason that is known, are over
// the limit or have no room. The words alone are within the limit, so no sum wraps.
pub fn write_message(
    buf: &mut [u8],
    refused: bool,
    head: &[u32],
    tail: &[u32],
    sizes: Sizes,
    given: &Given<'_>,
) -> Written
    requires tail_len_bound { length head.now + length tail.now ≤ 4096 }
    requires sizes_value { sizes ≡ sizes_of (bytes_in given.now) }
    ensures answer { result ≡ sent_of refused (length buf.old) (head.now ++ tail.now) (bytes_in given.now) }
    ensures buffer { buf.new ≡ sent_into refused buf.old (head.now ++ tail.now) (bytes_in given.now) }
{
    let second = 4 * head.len();
    let fields = second + 4 * tail.len();
    let total = total(fields, sizes);
    if refused | (MOST_BYTES < total) {
        return Err(Refusal::NotReadable);
    }
    if buf.len() < total {
        return Err(Refusal::BufferTooShort);
    }
    put_le_words(buf, 0, head);
    put_le_words(buf, second, tail);
    copy_fields(buf, fields, given);
    Ok(total)
}
