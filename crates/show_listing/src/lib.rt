// The listing: a snapshot and framed messages in, the name table that they lead to out, as text.
#![tactic(auto, using(show_text::proofs::PageLaws::pages))]

ghost use Rattle.std.specs.Prelude.{◌≡◌, true, ◌||◌, ◌≤◌, length, ltb};
ghost use Rattle.show_text.specs.Text.{Puts};
ghost use Rattle.show_text.specs.Page.{with_text};
ghost use Rattle.framing.specs.Frames.{messages_in, is_cut};
ghost use Rattle.table_words.specs.Layout.{entry_width};
ghost use Rattle.table_words.specs.Words.{entry_of, entries_in, table_of};
ghost use Rattle.replica.specs.Valid.{valid_of};
ghost use Rattle.replay.specs.Run.{replica_after};
ghost use Rattle.show_listing.specs.Listing.{head_text, head_line, kind_word, entry_line, table_text, cut_line, refused_listing, max_input, listing_of};
ghost use Rattle.show_listing.specs.Inner.{id_in};
ghost use Rattle.lists.specs.Lists.{flat_map};

use refusal::Refusal;
use replica::Replica;
use show_text::Page;
use table_rules::EntryKind;
use table_words::{ENTRY_NUMBERS, Entries};

// It takes as many bytes of input.
pub const INPUT: usize = 65536;

// Where a replica is, in words.
#[tactic(auto, using(show_text::proofs::PageLaws::pages), unfolding(crate::specs::Listing::head_text))]
pub fn state(page: &mut Page, version: u32, host: u32, next: u32)
    ensures { page.new ≡ with_text page.old (head_text version host next) }
{
    page.named(b"version ", version);
    page.named(b" host ", host);
    page.named(b" next ", next);
}

// The same at a place of a buffer; the place after it.
#[tactic(auto, unfolding(show_text::specs::Page::with_text))]
pub fn put_state(buf: &mut [u8], at: usize, version: u32, host: u32, next: u32) -> usize
    ensures { Puts buf.old at (head_text version host next) buf.new result }
{
    let mut page = Page { buf, at };
    state(&mut page, version, host, next);
    page.at
}

#[tactic(auto, using(show_text::proofs::PageLaws::pages), unfolding(crate::specs::Listing::head_line))]
fn put_head(page: &mut Page, version: u32, host: u32, next: u32)
    ensures { page.new ≡ with_text page.old (head_line version host next) }
{
    state(page, version, host, next);
    page.text(b"\n");
}

// The word of a kind.
#[tactic(auto, using(show_text::proofs::PageLaws::ascii_is, std::proofs::lemmas::Bool::Decides::nat_tests))]
pub fn kind(page: &mut Page, kind: u32)
    ensures { page.new ≡ with_text page.old (kind_word kind) }
{
    if kind == u32::from(EntryKind::Player) {
        page.text(b"player ");
    } else {
        page.text(b"group ");
    }
}

// The same at a place of a buffer; the place after it.
#[tactic(auto, unfolding(show_text::specs::Page::with_text))]
pub fn put_kind(buf: &mut [u8], at: usize, kind: u32) -> usize
    ensures { Puts buf.old at (kind_word kind) buf.new result }
{
    let mut page = Page { buf, at };
    self::kind(&mut page, kind);
    page.at
}

// The line of a row.
#[tactic(auto, using(show_text::proofs::PageLaws::pages), unfolding(crate::specs::Listing::entry_line))]
fn put_entry(page: &mut Page, row: &[u32])
    requires { entry_width ≤ length row.now }
    ensures { page.new ≡ with_text page.old (entry_line (entry_of row.now)) }
{
    kind(page, row[0]);
    page.decimal(row[1]);
    page.named(b" ", row[4]);
    page.named(b" ", names::name_characters(&row[ENTRY_NUMBERS..]));
    page.text(b"\n");
}

// The lines of rows.
fn put_entries(page: &mut Page, rows: Entries<'_>)
    ensures { page.new ≡ with_text page.old (flat_map entry_line (entries_in rows.entry.count rows.entry.words.now)) }
{
    for row in rows.each() {
        put_entry(page, row);
    }
}

fn id_in(next: Result<u32, Refusal>) -> u32
    ensures { result ≡ id_in next }
{
    next.unwrap_or(0)
}

fn put_table(page: &mut Page, w: &[u32])
    requires { valid_of w.now ≡ true }
    ensures { page.new ≡ with_text page.old (table_text (table_of w.now)) }
{
    let version = table_words::version(w);
    let host = table_words::host(w);
    let next = id_in(replica::next_host(w));
    put_head(page, version, host, next);
    put_entries(page, table_words::entries(w));
}

fn put_cut(page: &mut Page, cut: bool)
    ensures { page.new ≡ with_text page.old (cut_line cut) }
{
    if cut {
        page.text(b"cut\n");
    }
}

#[tactic(auto, using(show_text::proofs::PageLaws::pages), unfolding(crate::specs::Listing::refused_listing))]
fn put_refused(page: &mut Page, number: u32)
    ensures { page.new ≡ with_text page.old (refused_listing number) }
{
    page.text(b"refused ");
    page.decimal(number);
    page.text(b"\n");
}

// Delivers every whole message to the words in turn, and passes over what is refused: whether a tail is left.
#[tactic(auto, unfolding(replay::specs::Run::replica_after, framing::specs::Frames::count_of))]
fn follow(w: &mut [u32], s: &[u8]) -> bool
    ensures words { w.new ≡ replica_after w.old (messages_in s.now) }
    ensures tail { result ≡ is_cut s.now }
{
    for message in framing::messages(s) {
        let _ = replica::deliver_in(w, message);
    }
    framing::counted(s).cut
}

// Whether something was dropped: a tail, or what lies past the limit.
fn is_cut(tail: bool, len: usize) -> bool
    ensures { result ≡ (ltb max_input len || tail) }
{
    INPUT < len || tail
}

fn put_listing(page: &mut Page, input: &[u8])
    ensures { page.new ≡ with_text page.old (listing_of input.now) }
{
    let mut w = [0u32; Replica::WORDS];
    let s = framing::front(input, INPUT);
    let end = framing::first_end(s);
    if let Err(refusal) = snapshot::read_in(&mut w, framing::front(s, end)) {
        put_refused(page, refusal.number());
        return;
    }
    let tail = follow(&mut w, framing::back(s, end));
    put_table(page, &w);
    put_cut(page, is_cut(tail, input.len()));
}

// Puts the listing of an input at the buffer's start, as much of it as there is room for, and answers how many bytes that is.
#[tactic(auto, unfolding(show_text::specs::Page::with_text))]
pub fn listing_text(input: &[u8], buf: &mut [u8]) -> usize
    ensures { Puts buf.old 0 (listing_of input.now) buf.new result }
{
    let mut page = Page { buf, at: 0 };
    put_listing(&mut page, input);
    page.at
}
