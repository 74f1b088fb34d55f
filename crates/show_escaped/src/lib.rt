// Bytes and UTF-16 units put as text that can be read: in quotes, and what is no plain character as its number in hexadecimal.
// `put_name` asks for a row with all the words of a name.
#![tactic(auto, using(show_text::proofs::PageLaws::pages))]

ghost use Rattle.std.specs.Prelude.{◌≡◌, ◌≤◌, length};
ghost use Rattle.lists.specs.Lists.{flat_map, without_last};
ghost use Rattle.wire_text.specs.Text.{units};
ghost use Rattle.names.specs.Words.{name_width, name_of};
ghost use Rattle.show_text.specs.Page.{with_text};
ghost use Rattle.show_escaped.specs.Escaped.{hex_digits, hex_text, is_plain, escaped, escaped_byte, escaped_unit};
ghost use Rattle.show_escaped.specs.Escaped.{quoted_units, bytes_text, units_text, url_text};

use names::name_unit;
use show_text::Page;
use wire_text::unit;

const DIGITS: [u8; 16] = *b"0123456789ABCDEF";

// The last four hexadecimal digits.
#[tactic(auto, unfolding(crate::specs::Escaped::hex_digit, show_text::specs::Text::ascii))]
fn hex_digits(n: u32) -> [u8; 4]
    ensures { result ≡ hex_digits 4 n }
{
    let mut ds = [0u8; 4];
    let mut rest = n;
    for i in (0..4).rev() {
        ds[i] = DIGITS[(rest % 16) as usize];
        rest /= 16;
    }
    ds
}

#[tactic(auto, unfolding(crate::specs::Escaped::is_plain))]
fn is_plain(n: u32) -> bool
    ensures { result ≡ is_plain n }
{
    32 <= n && n <= 126 && n != 34 && n != 92
}

// Puts a character: itself where it is plain, else what stands for it.
#[tactic(auto, using(show_text::proofs::PageLaws::pages, crate::proofs::EscapeLaws::plain_small), unfolding(crate::specs::Escaped::escaped))]
fn put_escaped(page: &mut Page, other: &[u8], n: u32)
    ensures { page.new ≡ with_text page.old (escaped other.now n) }
{
    if is_plain(n) {
        page.text(&[n as u8]);
    } else {
        page.text(other);
    }
}

#[tactic(auto, unfolding(crate::specs::Escaped::escaped_byte, show_text::specs::Text::ascii))]
fn put_byte(page: &mut Page, b: u8)
    ensures { page.new ≡ with_text page.old (escaped_byte b) }
{
    let n = b as u32;
    let ds = hex_digits(n);
    put_escaped(page, &[b'\\', b'x', ds[2], ds[3]], n);
}

#[tactic(auto, unfolding(crate::specs::Escaped::escaped_unit, show_text::specs::Text::ascii))]
fn put_unit(page: &mut Page, u: u32)
    ensures { page.new ≡ with_text page.old (escaped_unit u) }
{
    let ds = hex_digits(u);
    put_escaped(page, &[b'\\', b'u', ds[0], ds[1], ds[2], ds[3]], u);
}

// Puts each byte as two hexadecimal digits.
#[tactic(auto, using(show_text::proofs::PageLaws::pages), unfolding(crate::specs::Escaped::hex_text))]
pub fn put_hex(page: &mut Page, s: &[u8])
    ensures { page.new ≡ with_text page.old (hex_text s.now) }
{
    for b in s {
        page.text(&hex_digits(*b as u32)[2..]);
    }
}

// Puts bytes in quotes.
#[tactic(auto, using(show_text::proofs::PageLaws::pages), unfolding(crate::specs::Escaped::bytes_text))]
pub fn put_bytes(page: &mut Page, s: &[u8])
    ensures { page.new ≡ with_text page.old (bytes_text s.now) }
{
    page.text(b"\"");
    for b in s {
        put_byte(page, *b);
    }
    page.text(b"\"");
}

// Puts UTF-16 text in quotes, without its terminator.
#[tactic(auto, using(crate::proofs::EscapeLaws::unit_pages), unfolding(crate::specs::Escaped::units_text, crate::specs::Escaped::quoted_units))]
pub fn put_units(page: &mut Page, s: &[u8])
    ensures { page.new ≡ with_text page.old (units_text s.now) }
{
    page.text(b"\"");
    for i in 0..(s.len() / 2).saturating_sub(1) {
        put_unit(page, unit(s[2 * i], s[2 * i + 1]));
    }
    page.text(b"\"");
}

// Puts the name of a row in quotes.
#[tactic(auto, using(show_text::proofs::PageLaws::pages), unfolding(crate::specs::Escaped::quoted_units))]
pub fn put_name(page: &mut Page, row: &[u32])
    requires { name_width ≤ length row.now }
    ensures { page.new ≡ with_text page.old (quoted_units (name_of row.now)) }
{
    page.text(b"\"");
    for i in 0..names::name_length(row) as usize {
        put_unit(page, name_unit(row, i));
    }
    page.text(b"\"");
}

fn without_last(s: &[u8]) -> &[u8]
    ensures { result.now ≡ without_last s.now }
{
    &s[..s.len().saturating_sub(1)]
}

// Puts a URL in quotes, without its terminator.
#[tactic(auto, unfolding(crate::specs::Escaped::url_text))]
pub fn put_url(page: &mut Page, s: &[u8])
    ensures { page.new ≡ with_text page.old (url_text s.now) }
{
    put_bytes(page, without_last(s));
}
