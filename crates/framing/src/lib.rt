// Parts of a run of bytes, and messages one after another, each after a 4-byte big-endian length.
#![tactic(auto)]

ghost use Rattle.std.specs.Prelude.{◌≡◌, ◌+◌, ◌≤◌, ◌<◌, length, take, drop};
ghost use Rattle.std.specs.Iterator.{YieldsFirstRef, item_count};
ghost use Rattle.framing.specs.Frames.{is_whole, length_word, first_message, next_place, messages_in, messages_left, count_of};

use byte_words::be32;

// How many whole messages stand one after another, and whether bytes are left behind them.
#[derive(Clone, Copy)]
pub struct Count {
    pub messages: usize,
    pub cut: bool,
}

// The first n bytes; all where there are no more.
pub fn front(s: &[u8], n: usize) -> &[u8]
    ensures { result.now ≡ take n s.now }
{
    s.get(..n).unwrap_or(s)
}

// The bytes behind the first n; none where there are no more.
pub fn back(s: &[u8], n: usize) -> &[u8]
    ensures { result.now ≡ drop n s.now }
{
    s.get(n..).unwrap_or(&[])
}

// Where the first message ends, by its length word.
pub fn first_end(s: &[u8]) -> usize
    ensures { result ≡ 4 + length_word s.now }
{
    4 + be32(s, 0) as usize
}

// Whether a whole message stands at the start.
#[tactic(auto, unfolding(crate::specs::Frames::is_whole))]
pub fn is_whole(s: &[u8]) -> bool
    ensures { result ≡ is_whole s.now }
{
    4 <= s.len() && first_end(s) <= s.len()
}

// The message at the start, as much of it as is there.
pub fn first(s: &[u8]) -> &[u8]
    ensures { result.now ≡ first_message s.now }
{
    front(back(s, 4), be32(s, 0) as usize)
}

// The place behind the message at a place, and never past the end: for loops over all messages.
#[tactic(auto, unfolding(crate::specs::Frames::next_place))]
pub fn next(s: &[u8], at: usize) -> usize
    ensures place { result ≡ next_place s.now at }
    ensures within { result ≤ length s.now }
    ensures further { at < length s.now → at < result }
{
    let rest = back(s, at);
    let end = first_end(rest);
    if rest.len() <= end {
        return s.len();
    }
    at + end
}

// The whole messages, one after another.
#[derive(Drop)]
pub struct MessageIter<'a> {
    rest: &'a [u8],
}

impl<'a> Iterator for MessageIter<'a> {
    type Item = &'a [u8];

    ghost next_gives = { YieldsFirstRef messages_left };

    ghost remaining = { item_count messages_left };

    #[tactic(auto, using(crate::proofs::FrameLaws::one_turn), unfolding(crate::specs::Frames::messages_left))]
    fn next(&mut self) -> Option<&'a [u8]> {
        if !is_whole(self.rest) {
            return None;
        }
        let message = first(self.rest);
        self.rest = back(self.rest, first_end(self.rest));
        Some(message)
    }
}

// The whole messages from the start on, without their lengths.
#[tactic(auto, unfolding(crate::specs::Frames::messages_left))]
pub fn messages(s: &[u8]) -> MessageIter<'_>
    ensures { messages_left result ≡ messages_in s.now }
{
    MessageIter { rest: s }
}

// How many messages there are, and whether they end before the bytes do.
#[tactic(auto, using(crate::proofs::FrameLaws::totals), unfolding(crate::specs::Frames::count_of, crate::proofs::FrameLaws::taken))]
pub fn counted(s: &[u8]) -> Count
    ensures { result ≡ count_of s.now }
{
    let mut messages: usize = 0;
    let mut end: usize = 0;
    for message in self::messages(s) {
        messages += 1;
        end += 4 + message.len();
    }
    Count {
        messages,
        cut: end < s.len(),
    }
}
