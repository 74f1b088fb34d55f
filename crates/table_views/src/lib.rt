// What callers see of a replica's words. Any words may come in, and any place be asked for.
#![tactic(auto)]

ghost use Rattle.std.specs.Prelude.{◌≡◌, ◌+◌, ◌*◌, ◌<◌, ◌≤◌, length, get_or};
ghost use Rattle.characters.specs.Characters.{characters};
ghost use Rattle.names.specs.Words.{name_width, name_of};
ghost use Rattle.table_rules.specs.NameTable.{max_entries, max_memberships};
ghost use Rattle.table_words.specs.Layout.{entry_width, membership_width, operation_width, window_size, entries_at, memberships_at, window_at, word_count};
ghost use Rattle.table_views.specs.Views.{row_at, name_at, entry_shown, nth_entry, nth_name, nth_membership, numbers_at, pending_name};

use names::NAME_WIDTH;
use table_rules::{ENTRIES, MEMBERSHIPS, Membership};
use table_words::{
    ENTRIES_AT, ENTRY_NUMBERS, ENTRY_WIDTH, MEMBERSHIP_WIDTH, MEMBERSHIPS_AT, OPERATION_NUMBERS,
    OPERATION_WIDTH, WINDOW, WINDOW_AT, WORDS, word_at,
};

// An entry without its name. Here and below kind and act are numbers: any words are shown, also those that say no kind and no act (`nth_entry`,
// `numbers_at`).
#[derive(Clone, Copy)]
pub struct EntryValues {
    pub kind: u32,
    pub id: u32,
    pub owner: u32,
    pub flags: u32,
    pub version: u32,
    pub dnet: u32,
}

// The numbers of an operation: act 1 adds an entry, 2 removes one, 3 joins, 4 leaves, 0 is an unused place. Of the last two the group is in id, the
// player in owner.
#[derive(Clone, Copy)]
pub struct OperationValues {
    pub act: u32,
    pub kind: u32,
    pub id: u32,
    pub owner: u32,
    pub flags: u32,
    pub version: u32,
    pub dnet: u32,
}

// Rows of equal width, from a word on.
#[derive(Clone, Copy)]
struct Part {
    first: usize,
    width: usize,
    count: usize,
}

const ENTRIES_PART: Part = Part {
    first: ENTRIES_AT,
    width: ENTRY_WIDTH,
    count: ENTRIES,
};

const MEMBERSHIPS_PART: Part = Part {
    first: MEMBERSHIPS_AT,
    width: MEMBERSHIP_WIDTH,
    count: MEMBERSHIPS,
};

const WINDOW_PART: Part = Part {
    first: WINDOW_AT,
    width: OPERATION_WIDTH,
    count: WINDOW,
};

// The words of no name.
const NO_NAME: [u32; NAME_WIDTH] = [0; NAME_WIDTH];

impl Part {
    // What stands from row i on; no words past the last row.
    fn row(self, w: &[u32], i: usize) -> &[u32]
        requires { self.first + self.width * self.count ≤ word_count }
        ensures { result.now ≡ row_at self.first self.width self.count w.now i }
    {
        if self.count <= i {
            return &[];
        }
        w.get(self.first + self.width * i..).unwrap_or(&[])
    }

    // What stands from the name of row i on, behind its numbers; where there is no such name, the words of none.
    fn name(self, w: &[u32], numbers: usize, i: usize) -> &[u32]
        requires { (numbers + name_width ≤ self.width) × (self.first + self.width * self.count ≤ word_count) }
        ensures long { name_width ≤ length result.now }
        ensures said { name_of result.now ≡ name_at self.first self.width numbers self.count w.now i }
    {
        if w.len() != WORDS {
            return &NO_NAME;
        }
        if self.count <= i {
            return &NO_NAME;
        }
        &self.row(w, i)[numbers..]
    }
}

// ---- what is shown

// Entry i.
#[tactic(auto, unfolding(crate::specs::Views::nth_entry))]
pub fn entry(w: &[u32], i: usize) -> EntryValues
    ensures { result ≡ entry_shown (nth_entry w.now i) }
{
    let row = ENTRIES_PART.row(w, i);
    EntryValues {
        kind: word_at(row, 0),
        id: word_at(row, 1),
        owner: word_at(row, 2),
        flags: word_at(row, 3),
        version: word_at(row, 4),
        dnet: word_at(row, 5),
    }
}

#[tactic(auto, unfolding(crate::specs::Views::nth_name))]
fn entry_name(w: &[u32], i: usize) -> &[u32]
    ensures long { name_width ≤ length result.now }
    ensures said { name_of result.now ≡ nth_name w.now i }
{
    ENTRIES_PART.name(w, ENTRY_NUMBERS, i)
}

// How many units its name has, and how many characters; unit j of it.
pub fn entry_name_length(w: &[u32], i: usize) -> u32
    ensures { result ≡ length (nth_name w.now i) }
{
    names::name_length(entry_name(w, i))
}

pub fn entry_name_characters(w: &[u32], i: usize) -> u32
    ensures { result ≡ characters (nth_name w.now i) }
{
    names::name_characters(entry_name(w, i))
}

pub fn entry_name_unit(w: &[u32], i: usize, j: usize) -> u32
    ensures { result ≡ get_or (nth_name w.now i) j 0 }
{
    names::name_unit(entry_name(w, i), j)
}

// Membership i.
#[tactic(auto, unfolding(crate::specs::Views::nth_membership))]
pub fn membership(w: &[u32], i: usize) -> Membership
    ensures { result ≡ nth_membership w.now i }
{
    let row = MEMBERSHIPS_PART.row(w, i);
    Membership {
        group: word_at(row, 0),
        player: word_at(row, 1),
    }
}

// The pending operation of place k.
#[tactic(auto, unfolding(crate::specs::Views::numbers_at))]
pub fn pending(w: &[u32], k: usize) -> OperationValues
    ensures { result ≡ numbers_at w.now k }
{
    let row = WINDOW_PART.row(w, k);
    OperationValues {
        act: word_at(row, 0),
        kind: word_at(row, 1),
        id: word_at(row, 2),
        owner: word_at(row, 3),
        flags: word_at(row, 4),
        version: word_at(row, 5),
        dnet: word_at(row, 6),
    }
}

#[tactic(auto, unfolding(crate::specs::Views::pending_name))]
fn added_name(w: &[u32], k: usize) -> &[u32]
    ensures long { name_width ≤ length result.now }
    ensures said { name_of result.now ≡ pending_name w.now k }
{
    WINDOW_PART.name(w, OPERATION_NUMBERS, k)
}

// How many units the name of the entry has that it adds, and how many characters; unit j of it.
#[tactic(auto, unfolding(crate::specs::Views::pending_name))]
pub fn pending_name_length(w: &[u32], k: usize) -> u32
    ensures { result ≡ length (pending_name w.now k) }
{
    names::name_length(added_name(w, k))
}

pub fn pending_name_characters(w: &[u32], k: usize) -> u32
    ensures { result ≡ characters (pending_name w.now k) }
{
    names::name_characters(added_name(w, k))
}

pub fn pending_name_unit(w: &[u32], k: usize, j: usize) -> u32
    ensures { result ≡ get_or (pending_name w.now k) j 0 }
{
    names::name_unit(added_name(w, k), j)
}
