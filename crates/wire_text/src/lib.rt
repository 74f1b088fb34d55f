// The two kinds of text that a field may hold, checked and counted in one pass over the part of the message that holds it.
// A check answers how many characters the text has, its terminator left out, and None of an ill-formed one.
#![tactic(auto)]

ghost use Rattle.std.specs.Prelude.{◌≡◌, ◌+◌, ◌*◌, ◌<◌};
ghost use Rattle.wire_text.specs.Text.{checked_text, text_check, url_check};

use characters::begun;

// The UTF-16 unit of two bytes.
pub fn unit(low: u8, high: u8) -> u32
    ensures { (result ≡ low + 256 * high) × (result < 65536) }
{
    u32::from(u16::from_le_bytes([low, high]))
}

// Checks a part that has to be UTF-16 text that its only zero unit ends.
pub fn check_text(s: &[u8]) -> Option<usize>
    ensures { result ≡ text_check s.now }
{
    let mut rest = s;
    let mut count: usize = 0;
    let mut before: u32 = 0;
    while let Some(([low, high], behind)) = rest.split_first_chunk::<2>() {
        let u = unit(*low, *high);
        if u == 0 {
            return behind.is_empty().then_some(count);
        }
        count += begun(before, u) as usize;
        before = u;
        rest = behind;
    }
    None
}

// Checks a part that has to be bytes that their only zero ends.
pub fn check_url(s: &[u8]) -> Option<usize>
    ensures { result ≡ url_check s.now }
{
    let zero = s.iter().position(|b| *b == 0)?;
    (zero + 1 == s.len()).then_some(zero)
}
