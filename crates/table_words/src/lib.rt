// A replica as a run of words: where its parts stand, and what callers see of it. Any words may come in, and any place be asked for, but
// `entries` and `memberships` are asked of all words of a replica.
#![tactic(auto)]

ghost use Rattle.std.specs.Prelude.{◌≡◌, ◌≤◌, get_or, length};
ghost use Rattle.table_rules.specs.NameTable.{max_entries, max_memberships};
ghost use Rattle.table_words.specs.Layout.{word_count};
ghost use Rattle.table_words.specs.Words.{version_of, host_of, entry_count, membership_count, entry_part, membership_part};

use names::NAME_WIDTH;
use rows::Rows;
use table_rules::{ENTRIES, MEMBERSHIPS};

// Words in a row: numbers, and behind them a name.
pub const ENTRY_NUMBERS: usize = 6;

pub const ENTRY_WIDTH: usize = ENTRY_NUMBERS + NAME_WIDTH;

pub const MEMBERSHIP_WIDTH: usize = 2;

pub const OPERATION_NUMBERS: usize = 7;

pub const OPERATION_WIDTH: usize = OPERATION_NUMBERS + NAME_WIDTH;

// Places for pending operations.
pub const WINDOW: usize = 31;

// The first word of each part; version, host and the two counts come first.
pub const ENTRIES_AT: usize = 4;

pub const MEMBERSHIPS_AT: usize = ENTRIES_AT + ENTRY_WIDTH * ENTRIES;

pub const WINDOW_AT: usize = MEMBERSHIPS_AT + MEMBERSHIP_WIDTH * MEMBERSHIPS;

pub const WORDS: usize = WINDOW_AT + OPERATION_WIDTH * WINDOW;

// A word as an index.
pub fn small(x: u32) -> usize
    ensures { result ≡ x }
{
    x as usize
}

// A word; 0 past the end.
pub fn word_at(w: &[u32], i: usize) -> u32
    ensures { result ≡ get_or w.now i 0 }
{
    w.get(i).copied().unwrap_or(0)
}

pub fn version(w: &[u32]) -> u32
    ensures { result ≡ version_of w.now }
{
    word_at(w, 0)
}

pub fn host(w: &[u32]) -> u32
    ensures { result ≡ host_of w.now }
{
    word_at(w, 1)
}

pub fn entry_count(w: &[u32]) -> u32
    ensures { result ≡ entry_count w.now }
{
    word_at(w, 2)
}

pub fn membership_count(w: &[u32]) -> u32
    ensures { result ≡ membership_count w.now }
{
    word_at(w, 3)
}

pub type Entries<'a> = Rows<'a, ENTRY_WIDTH>;

pub type Memberships<'a> = Rows<'a, MEMBERSHIP_WIDTH>;

// The rows of the entries of a replica's words.
pub fn entries(w: &[u32]) -> Entries<'_>
    requires { (length w.now ≡ word_count) × (entry_count w.now ≤ max_entries) }
    ensures { (result.words.now ≡ entry_part w.now) × (result.count ≡ entry_count w.now) }
{
    Rows::new(&w[ENTRIES_AT..MEMBERSHIPS_AT], small(w[2]))
}

pub fn memberships(w: &[u32]) -> Memberships<'_>
    requires { (length w.now ≡ word_count) × (membership_count w.now ≤ max_memberships) }
    ensures { (result.words.now ≡ membership_part w.now) × (result.count ≡ membership_count w.now) }
{
    Rows::new(&w[MEMBERSHIPS_AT..WINDOW_AT], small(w[3]))
}
