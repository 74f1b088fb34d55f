// What is told of a snapshot from its lent bytes alone, before anything is stored: 21 to 23, and of 24 the lengths of names and an id that
// stands twice. A call keeps a few numbers, whatever the count of entries.
#![tactic(auto)]

ghost use Rattle.std.specs.Prelude.{◌≡◌, [], ◌∷◌, ◌||◌, ◌+◌, ◌*◌, ◌≤◌, eqb};
ghost use Rattle.refusal.specs.Checks.{when, first_of};
ghost use Rattle.refusal.specs.Numbers.{no_of};
ghost use Rattle.lists.specs.Lists.{any};
ghost use Rattle.snapshot_bytes.specs.Inner.{far, most_entry};
ghost use Rattle.snapshot_bytes.specs.Snapshot.{entries_from, head_no, sizes_no};
ghost use Rattle.snapshot_checks.specs.RepeatedIds.{repeats_id};

use byte_words::byte;
use refusal::Refusal;
use snapshot_bytes::{ENTRY_COUNT_AT, HEAD_SIZE, entry_id, next_entry};

// Whether one of so many entries, the first at a place, has one of two ids.
#[tactic(auto, using(crate::proofs::IdLaws::any_next, crate::proofs::IdLaws::any_none))]
fn has_either(s: &[u8], at: usize, count: usize, a: u32, b: u32) -> bool
    requires { at + most_entry * count ≤ far }
    ensures { result ≡ any (λ e. eqb e.id a || eqb e.id b) (entries_from s.now at count) }
{
    let mut p = at;
    for _ in 0..count {
        let id = entry_id(s, p);
        if id == a || id == b {
            return true;
        }
        p = next_entry(s, p);
    }
    false
}

// Whether two entries that the bytes state have one id. Two entries at a time are looked for behind them, which halves the walks.
pub fn repeats_id(s: &[u8]) -> bool
    ensures { result ≡ repeats_id s.now }
{
    let count = usize::from(byte(s, ENTRY_COUNT_AT));
    let mut p = HEAD_SIZE;
    for i in 0..count / 2 {
        let a = entry_id(s, p);
        let q = next_entry(s, p);
        let b = entry_id(s, q);
        if a == b {
            return true;
        }
        p = next_entry(s, q);
        if has_either(s, p, count - 2 * (i + 1), a, b) {
            return true;
        }
    }
    false
}

// Refused with 24 where an id stands twice.
fn ids_check(s: &[u8]) -> Result<(), Refusal>
    ensures { no_of result ≡ when (repeats_id s.now) 24 }
{
    if repeats_id(s) {
        return Err(Refusal::SnapshotEntry);
    }
    Ok(())
}

// The first of these checks that fails.
#[tactic(auto, using(crate::proofs::BytesLaws::ways), unfolding(snapshot_bytes::specs::Snapshot::sizes_no))]
pub fn bytes_check(s: &[u8]) -> Result<(), Refusal>
    ensures { no_of result ≡ first_of (head_no s.now ∷ sizes_no s.now ∷ when (repeats_id s.now) 24 ∷ []) }
{
    snapshot_bytes::head_check(s)?;
    if !snapshot_bytes::sizes_valid(s, HEAD_SIZE, usize::from(byte(s, ENTRY_COUNT_AT))) {
        return Err(Refusal::SnapshotEntry);
    }
    ids_check(s)
}
