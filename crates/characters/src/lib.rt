// How many characters UTF-16 units have: a loop over units adds up what each begins, behind the unit before it.
#![tactic(auto)]

ghost use Rattle.std.specs.Prelude.{◌≡◌};
ghost use Rattle.characters.specs.Characters.{is_high, is_low};
ghost use Rattle.characters.specs.Inner.{begun};

// The two halves of a character outside the basic plane: the first unit of each, and the last.
const HIGH: u32 = 0xD800;

const HIGH_LAST: u32 = 0xDBFF;

const LOW: u32 = 0xDC00;

const LOW_LAST: u32 = 0xDFFF;

fn is_high(u: u32) -> bool
    ensures { result ≡ is_high u }
{
    (HIGH..=HIGH_LAST).contains(&u)
}

fn is_low(u: u32) -> bool
    ensures { result ≡ is_low u }
{
    (LOW..=LOW_LAST).contains(&u)
}

// How many characters a unit begins behind another, 0 where there is none: none where the two are the halves of one.
#[tactic(auto, unfolding(crate::specs::Inner::begun))]
pub fn begun(before: u32, u: u32) -> u32
    ensures { result ≡ begun before u }
{
    if is_low(u) && is_high(before) { 0 } else { 1 }
}
