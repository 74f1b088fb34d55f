// Names in rows of words: the length, then the units, two a word, the first in the low half. Words that have no unit are zero.
// Asked is that the row has all its words, and that bytes have as many units as are taken: who calls has seen to it. A row is a slice and no
// array: what is read may be longer, and what is written is cut out of a longer row, of which an array comes as an Option that is never None.
#![tactic(auto)]

ghost use Rattle.std.specs.Prelude.{◌≡◌, [], ◌∷◌, ◌+◌, ◌*◌, ◌/◌, ◌%◌, ◌≤◌, ◌<◌, length, take, get_or, replicate};
ghost use Rattle.byte_words.specs.Bytes.{value_of};
ghost use Rattle.lists.specs.Lists.{every};
ghost use Rattle.characters.specs.Characters.{characters};
ghost use Rattle.names.specs.Names.{unit_limit, max_name, units_of};
ghost use Rattle.names.specs.Words.{unit_words, name_width, paired, name_words, name_of};
ghost use Rattle.names.specs.Inner.{holds_name, is_full, rest_holds};

use byte_words::Order;

// The most units of a name.
pub const NAME: usize = 31;

// Words of its units, and of all of it; how many units these words can hold.
const UNIT_WORDS: usize = 16;

pub const NAME_WIDTH: usize = 1 + UNIT_WORDS;

const PLACES: u32 = 2 * (UNIT_WORDS as u32);

// One more than the largest unit.
const UNIT_LIMIT: u32 = 65536;

// ---- the halves of a word

fn low(w: u32) -> u32
    ensures { result ≡ w % unit_limit }
{
    w % UNIT_LIMIT
}

fn high(w: u32) -> u32
    ensures { result ≡ w / unit_limit % unit_limit }
{
    w / UNIT_LIMIT
}

// Whether both are units of a name.
fn is_full(w: u32) -> bool
    ensures { result ≡ is_full w }
{
    low(w) != 0 && high(w) != 0
}

// ---- a name in a row

fn all_full(s: &[u32]) -> bool
    ensures { result ≡ every is_full s.now }
{
    s.iter().all(|w| is_full(*w))
}

// Whether behind the full words there is one more unit, where their number is odd, and then nothing.
fn rest_holds(odd: usize, s: &[u32]) -> bool
    requires { 1 ≤ length s.now }
    ensures { result ≡ rest_holds odd s.now }
{
    if odd == 0 {
        return rows::all_zero(s);
    }
    s[0] != 0 && s[0] < UNIT_LIMIT && rows::all_zero(&s[1..])
}

// Whether the row is the row of a valid name.
pub fn holds_name(row: &[u32]) -> bool
    requires { name_width ≤ length row.now }
    ensures { result ≡ holds_name row.now }
{
    let n = row[0] as usize;
    if NAME < n {
        return false;
    }
    let end = 1 + n / 2;
    if !all_full(&row[1..end]) {
        return false;
    }
    rest_holds(n % 2, &row[end..NAME_WIDTH])
}

// How many units the name of a row has.
#[tactic(auto, using(crate::proofs::NameLaws::length_name))]
pub fn name_length(row: &[u32]) -> u32
    requires { name_width ≤ length row.now }
    ensures { result ≡ length (name_of row.now) }
{
    row[0].min(PLACES)
}

// A unit of the name of a row; 0 past the last.
pub fn name_unit(row: &[u32], j: usize) -> u32
    requires { name_width ≤ length row.now }
    ensures { (result ≡ get_or (name_of row.now) j 0) × (result < unit_limit) }
{
    if name_length(row) as usize <= j {
        return 0;
    }
    let w = row[1 + j / 2];
    if j % 2 == 0 { low(w) } else { high(w) }
}

// How many characters the name of a row has: what each unit begins behind the one before it, added up.
pub fn name_characters(row: &[u32]) -> u32
    requires { name_width ≤ length row.now }
    ensures { result ≡ characters (name_of row.now) }
{
    let mut n: u32 = 0;
    let mut before: u32 = 0;
    for j in 0..name_length(row) as usize {
        let u = name_unit(row, j);
        n += characters::begun(before, u);
        before = u;
    }
    n
}

// ---- a name from bytes

fn join(order: Order, a: u8, b: u8) -> u32
    ensures { (result ≡ value_of order (a ∷ b ∷ [])) × (result < unit_limit) }
{
    match order {
        Order::Little => u32::from(u16::from_le_bytes([a, b])),
        Order::Big => u32::from(u16::from_be_bytes([a, b])),
    }
}

// Unit j of the first n; 0 past them.
fn unit_at(order: Order, s: &[u8], n: usize, j: usize) -> u32
    requires { 2 * n ≤ length s.now }
    ensures { (result ≡ get_or (take n (units_of order s.now)) j 0) × (result < unit_limit) }
{
    if n <= j {
        return 0;
    }
    join(order, s[2 * j], s[2 * j + 1])
}

// Two of them as a word.
fn pair_at(order: Order, s: &[u8], n: usize, j: usize) -> u32
    requires { (2 * n ≤ length s.now) × (j < 2 * unit_words) }
    ensures { result ≡ get_or (take n (units_of order s.now)) j 0 + unit_limit * get_or (take n (units_of order s.now)) (j + 1) 0 }
{
    let a = unit_at(order, s, n, j);
    a + UNIT_LIMIT * unit_at(order, s, n, j + 1)
}

// Writes the first n units into words that are zero.
fn put_pairs(w: &mut [u32], order: Order, s: &[u8], n: usize)
    requires { (w.old ≡ replicate unit_words 0) × (n ≤ max_name) × (2 * n ≤ length s.now) }
    ensures { w.new ≡ paired unit_words (take n (units_of order s.now)) }
{
    for i in 0..n.div_ceil(2) {
        w[i] = pair_at(order, s, n, 2 * i);
    }
}

// Makes a row that of the name of the first n units, whatever was there.
pub fn put_name(row: &mut [u32], order: Order, s: &[u8], n: usize)
    requires { (length row.old ≡ name_width) × (n ≤ max_name) × (2 * n ≤ length s.now) }
    ensures { row.new ≡ name_words (take n (units_of order s.now)) }
{
    rows::clear(row);
    put_pairs(&mut row[1..NAME_WIDTH], order, s, n);
    row[0] = n as u32;
}
