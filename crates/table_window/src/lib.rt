// Pending operations: the window of a replica's words, a row for each version from the replica's + 2 on. An unused row is zero.
// Asked is that the slice is a window: `replica` cuts it out of words whose number it has tested.
#![tactic(auto)]

ghost use Rattle.std.specs.Prelude.{◌≡◌, ◌+◌, ◌≤◌, length, ◌&&◌, drop, get_or, eqb};
ghost use Rattle.names.specs.Inner.{holds_name};
ghost use Rattle.table_rules.specs.Operations.{number_count, names_entry};
ghost use Rattle.table_words.specs.Layout.{operation_width, window_size, window_room};
ghost use Rattle.table_words.specs.Words.{window_in, of_row};
ghost use Rattle.table_window.specs.Window.{used};
ghost use Rattle.table_window.specs.Inner.{tail_zero, pair_row_valid, act_row_valid, row_valid, rows_valid, run_of, Tidy, shifted};

use rows::{Rows, wide};
use table_rules::{Act, is_kind};
use table_words::{OPERATION_NUMBERS, OPERATION_WIDTH, WINDOW};

// Whether a row has an operation. Here and below a row is a slice with its length asked, and no array: this one may be lent a longer slice,
// and the others are lent what `rows` yields of a window, which is a slice too.
pub fn is_used(row: &[u32]) -> bool
    requires { operation_width ≤ length row.now }
    ensures { result ≡ used (of_row row.now) }
{
    Act::try_from(row[0]).is_ok()
}

// How many rows at the front of a window are used.
pub fn run_length(s: &[u32]) -> usize
    requires { length s.now ≡ window_room }
    ensures { result ≡ run_of (window_in s.now) }
{
    Rows::<OPERATION_WIDTH>::new(s, WINDOW)
        .each()
        .position(|row| !is_used(row))
        .unwrap_or(WINDOW)
}

// Moves the window on by so many versions. Mostly nothing is pending, and then nothing has to move.
#[tactic(auto, using(crate::proofs::WindowLaws::shift_all, crate::proofs::WindowLaws::shift_none, crate::proofs::WindowLaws::shift_some))]
pub fn shift(s: &mut [u32], by: usize)
    requires { (length s.old ≡ window_room) × Tidy s.old }
    ensures { s.new ≡ shifted by s.old }
{
    if WINDOW < by {
        rows::clear(s);
        return;
    }
    if Rows::<OPERATION_WIDTH>::new(s, WINDOW).column_zero(0) {
        return;
    }
    rows::close_gap(s, 0, OPERATION_WIDTH * by);
}

// Whether operations act on entries of that kind, and the id is not 0.
fn names_entry(kind: u32, id: u32) -> bool
    ensures { result ≡ names_entry kind id }
{
    is_kind(kind) && id != 0
}

// Whether what behind the version has no use but in the row of an entry is zero.
fn tail_zero(row: &[u32]) -> bool
    requires { operation_width ≤ length row.now }
    ensures { result ≡ tail_zero row.now }
{
    row[4] == 0 && rows::all_zero(&row[6..OPERATION_WIDTH])
}

// Whether the row of an operation that adds an entry is valid, its version aside; below, of one that removes, and of one that joins or leaves.
fn adds_well(row: &[u32]) -> bool
    requires { operation_width ≤ length row.now }
    ensures { result ≡ (names_entry (get_or row.now 1 0) (get_or row.now 2 0) && holds_name (drop number_count row.now)) }
{
    names_entry(row[1], row[2]) && names::holds_name(&row[OPERATION_NUMBERS..])
}

fn removes_well(row: &[u32]) -> bool
    requires { operation_width ≤ length row.now }
    ensures { result ≡ (names_entry (get_or row.now 1 0) (get_or row.now 2 0)
        && (eqb (get_or row.now 3 0) 0 && tail_zero row.now)) }
{
    names_entry(row[1], row[2]) && row[3] == 0 && tail_zero(row)
}

fn pairs_well(row: &[u32]) -> bool
    requires { operation_width ≤ length row.now }
    ensures { result ≡ pair_row_valid row.now }
{
    row[2] != 0 && row[3] != 0 && row[1] == 0 && tail_zero(row)
}

// Whether the row of an operation is valid, its version aside. It is not inlined, since `row_valid` would then take the words of each row one
// by one, and no longer several in one step.
#[inline(never)]
fn act_valid(row: &[u32]) -> bool
    requires { operation_width ≤ length row.now }
    ensures { result ≡ act_row_valid row.now }
{
    match Act::try_from(row[0]) {
        Ok(Act::Add) => adds_well(row),
        Ok(Act::Remove) => removes_well(row),
        Ok(Act::Join) => pairs_well(row),
        Ok(Act::Leave) => pairs_well(row),
        Err(_) => false,
    }
}

// Whether a row is zero, or the very row of an operation that may stand in the place of version v.
#[tactic(auto, using(crate::proofs::WindowLaws::zero_row, crate::proofs::RowTests::row_tests))]
fn row_valid(row: &[u32], v: u64) -> bool
    requires { operation_width ≤ length row.now }
    ensures { result ≡ row_valid v row.now }
{
    rows::all_zero(&row[0..OPERATION_WIDTH]) || wide(row[5]) == v && act_valid(row)
}

// Whether every row is.
fn rows_valid(s: &[u32], version: u32) -> bool
    requires { length s.now ≡ window_room }
    ensures { result ≡ rows_valid (version + 2) window_size s.now }
{
    let mut v = wide(version) + 2;
    for row in Rows::<OPERATION_WIDTH>::new(s, WINDOW).each() {
        if !row_valid(row, v) {
            return false;
        }
        v += 1;
    }
    true
}

// The same, quickly where nothing is pending.
#[tactic(auto, using(crate::proofs::WindowLaws::zero_rows))]
pub fn window_valid(s: &[u32], version: u32) -> bool
    requires { length s.now ≡ window_room }
    ensures { result ≡ rows_valid (version + 2) window_size s.now }
{
    rows::all_zero(s) || rows_valid(s, version)
}
