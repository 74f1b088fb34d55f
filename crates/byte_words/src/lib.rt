// 32-bit words, in either byte order, and bytes: read off a slice, and written into one.
// Every function takes any slice and any place: a word that is not whole there reads as 0, what has no room is not written, and every other byte stays.
#![tactic(auto)]

ghost use Rattle.std.specs.Prelude.{◌≡◌, [], ◌∷◌, get_or};
ghost use Rattle.byte_words.specs.Bytes.{little, big, value_of, bytes_of, word_at, put, words};

// Which byte of a number stands first: the lowest, or the highest.
#[derive(Clone, Copy)]
pub enum Order {
    Little,
    Big,
}

fn join(order: Order, bs: [u8; 4]) -> u32
    ensures { result ≡ value_of order bs }
{
    match order {
        Order::Little => u32::from_le_bytes(bs),
        Order::Big => u32::from_be_bytes(bs),
    }
}

// Both tests are on numbers: cutting the rest and its first four bytes off as slices took a quarter more of the reading of a snapshot.
#[tactic(auto, using(crate::proofs::ByteLaws::word_past))]
fn word(order: Order, s: &[u8], at: usize) -> u32
    ensures { result ≡ word_at order s.now at }
{
    if s.len() < 4 || s.len() - 4 < at {
        return 0;
    }
    join(order, [s[at], s[at + 1], s[at + 2], s[at + 3]])
}

// `le32`, `be32`, `put_le_words` and `put_be_words` are the instances of `word` and `put_words`, which take the order. They stay: a caller
// that reads five words of one order would say it five times.

// The little-endian word at a place.
pub fn le32(s: &[u8], at: usize) -> u32
    ensures { result ≡ word_at little s.now at }
{
    word(Order::Little, s, at)
}

// The big-endian word at a place.
pub fn be32(s: &[u8], at: usize) -> u32
    ensures { result ≡ word_at big s.now at }
{
    word(Order::Big, s, at)
}

// The byte at a place, 0 past the end.
pub fn byte(s: &[u8], at: usize) -> u8
    ensures { result ≡ get_or s.now at 0 }
{
    match s.get(at) {
        Some(b) => *b,
        None => 0,
    }
}

// Copies all of a run of bytes into the buffer from a place on. A loop, since of `copy_from_slice` the compiler makes calls of memmove, which
// the archive for C would need from outside.
pub fn copy_in(buf: &mut [u8], at: usize, src: &[u8])
    ensures { buf.new ≡ put buf.old at src.now }
{
    if buf.len() < src.len() || buf.len() - src.len() < at {
        return;
    }
    for i in 0..src.len() {
        buf[at + i] = src[i];
    }
}

// Writes a byte at a place.
pub fn put_byte(buf: &mut [u8], at: usize, b: u8)
    ensures { buf.new ≡ put buf.old at (b ∷ []) }
{
    copy_in(buf, at, &[b]);
}

fn split(order: Order, v: u32) -> [u8; 4]
    ensures { result ≡ bytes_of order 4 v }
{
    match order {
        Order::Little => v.to_le_bytes(),
        Order::Big => v.to_be_bytes(),
    }
}

// Writes a word at a place.
pub fn put_word(order: Order, buf: &mut [u8], at: usize, v: u32)
    ensures { buf.new ≡ put buf.old at (bytes_of order 4 v) }
{
    copy_in(buf, at, &split(order, v));
}

// Writes words one after another from a place on.
#[tactic(auto, using(crate::proofs::RunLaws::word_turns))]
pub fn put_words(order: Order, buf: &mut [u8], at: usize, ws: &[u32])
    ensures { buf.new ≡ put buf.old at (words order ws.now) }
{
    if buf.len() / 4 < ws.len() || buf.len() - 4 * ws.len() < at {
        return;
    }
    for (i, w) in ws.iter().enumerate() {
        put_word(order, buf, at + 4 * i, *w);
    }
}

pub fn put_le_words(buf: &mut [u8], at: usize, ws: &[u32])
    ensures { buf.new ≡ put buf.old at (words little ws.now) }
{
    put_words(Order::Little, buf, at, ws);
}

pub fn put_be_words(buf: &mut [u8], at: usize, ws: &[u32])
    ensures { buf.new ≡ put buf.old at (words big ws.now) }
{
    put_words(Order::Big, buf, at, ws);
}
