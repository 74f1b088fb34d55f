// The checks of a message of fixed length: its layout is its size and where ids stand.
// The ids have to stand behind the type word, as those of every layout do.
#![tactic(auto)]

ghost use Rattle.std.specs.Prelude.{◌≡◌, ℕ, ◌≤◌};
ghost use Rattle.refusal.specs.Numbers.{no_of};
ghost use Rattle.wire_field.specs.Words.{type_word, whole};
ghost use Rattle.wire_layout.specs.Layout.{exact_layout};
ghost use Rattle.wire_layout.specs.Checks.{ids_no, layout_no};
ghost use Rattle.wire_exact.specs.Ids.{ids_of, IdsAfter};

use refusal::Refusal;
use wire_field::{Position, TYPE_WORD};
use wire_layout::word_at;

// Check 7 of the ids at these positions.
fn ids_check(rest: &[u8], ids: &[Position]) -> Result<(), Refusal>
    requires { IdsAfter ids.now }
    ensures { (kind : ℕ) → no_of result ≡ ids_no (whole kind rest.now) (ids_of ids.now) }
{
    for id in ids {
        if word_at(rest, *id) == 0 {
            return Err(Refusal::IdZero);
        }
    }
    Ok(())
}

// Checks 4, 5 and 7.
pub fn exact_check(rest: &[u8], fixed: Position, ids: &[Position]) -> Result<(), Refusal>
    requires type_word_le_fixed { type_word ≤ fixed.0 }
    requires ids_after { IdsAfter ids.now }
    ensures { (kind : ℕ) → no_of result ≡ layout_no (exact_layout kind fixed.0 (ids_of ids.now)) (whole kind rest.now) }
{
    let after = fixed.0 - TYPE_WORD;
    if rest.len() < after {
        return Err(Refusal::UnderFixedPart);
    }
    if after < rest.len() {
        return Err(Refusal::OverFixedPart);
    }
    ids_check(rest, ids)
}
