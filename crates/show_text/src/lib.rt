// Text in a buffer that the caller lends: fixed words and decimal numbers, one after another, as far as there is room.
#![tactic(auto, using(crate::proofs::PageLaws::pages))]

ghost use Rattle.std.specs.Prelude.{◌≡◌, ◌<◌, drop};
ghost use Rattle.show_text.specs.Text.{decimal_digits, trimmed, decimal, named};
ghost use Rattle.show_text.specs.Page.{with_text};

use byte_words::copy_in;

// A buffer that the caller lends, and the place in it where the next text goes.
#[derive(Drop)]
pub struct Page<'a> {
    pub buf: &'a mut [u8],
    pub at: usize,
}

// All ten decimal digits.
fn digits(n: u32) -> [u8; 10]
    ensures { result ≡ decimal_digits 10 n }
{
    let mut ds = [0u8; 10];
    let mut rest = n;
    for i in (0..10).rev() {
        ds[i] = b'0' + (rest % 10) as u8;
        rest /= 10;
    }
    ds
}

// The place of the last digit.
const LAST: usize = 9;

// Where the number starts: past the zeros in front, the last digit kept.
fn first_digit(ds: &[u8; 10]) -> usize
    ensures within { result < 10 }
    ensures front { drop result ds.now ≡ trimmed ds.now }
{
    for i in 0..LAST {
        if ds[i] != b'0' {
            return i;
        }
    }
    LAST
}

impl Page<'_> {
    // Puts a text, as much of it as there is room for.
    pub fn text(&mut self, s: &[u8])
        ensures { self.new ≡ with_text self.old s.now }
    {
        let buf = &mut *self.buf;
        let n = s.len().min(buf.len().saturating_sub(self.at));
        copy_in(buf, self.at, &s[..n]);
        self.at += n;
    }

    // Puts a number in decimal.
    #[tactic(auto, using(crate::proofs::PageLaws::pages), unfolding(crate::specs::Text::decimal))]
    pub fn decimal(&mut self, n: u32)
        ensures { self.new ≡ with_text self.old (decimal n) }
    {
        let ds = digits(n);
        let i = first_digit(&ds);
        self.text(&ds[i..]);
    }

    // Puts a word, and a number in decimal behind it.
    #[tactic(auto, using(crate::proofs::PageLaws::pages), unfolding(crate::specs::Text::named))]
    pub fn named(&mut self, word: &[u8], n: u32)
        ensures { self.new ≡ with_text self.old (named word.now n) }
    {
        self.text(word);
        self.decimal(n);
    }
}
