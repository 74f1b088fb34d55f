// What happens to a replica, told in lines: the name table that it starts from, and each delivery.
#![tactic(auto, using(show_text::proofs::PageLaws::pages))]

ghost use Rattle.std.specs.Prelude.{◌≡◌, true, ◌≤◌, length};
ghost use Rattle.lists.specs.Lists.{flat_map};
ghost use Rattle.wire_read.specs.Read.{reading_of};
ghost use Rattle.show_text.specs.Text.{Puts, named};
ghost use Rattle.show_text.specs.Page.{with_text};
ghost use Rattle.names.specs.Words.{name_width, name_of};
ghost use Rattle.table_words.specs.Layout.{entry_width, membership_width};
ghost use Rattle.table_words.specs.Words.{entry_of, membership_of, entries_in, memberships_in};
ghost use Rattle.replica.specs.Valid.{valid_of};
ghost use Rattle.replica.specs.Deliver.{deliver_of};
ghost use Rattle.show_listing.specs.Listing.{kind_word};
ghost use Rattle.show_trace.specs.Trace.{next_shown, state_text, refused_answer, applied_answer, answer_text, said_part, delivery_line};
ghost use Rattle.show_trace.specs.Trace.{name_start, entry_start, member_start, table_start, refused_start, start_text};

use refusal::Refusal;
use replica::{Answer, Delivery};
use show_text::Page;
use table_words::{ENTRY_NUMBERS, Entries, Memberships};
use wire_read::ReadMessage;

// The id of the next host; 0 if there is none, and of words that are no valid replica.
fn next_shown(w: &[u32]) -> u32
    ensures { result ≡ next_shown w.now }
{
    match replica::next_host(w) {
        Ok(id) => id,
        Err(_) => 0,
    }
}

// Where a replica is.
fn put_state(page: &mut Page, w: &[u32])
    ensures { page.new ≡ with_text page.old (state_text w.now) }
{
    let version = table_words::version(w);
    let host = table_words::host(w);
    let next = next_shown(w);
    show_listing::state(page, version, host, next);
}

#[tactic(auto, using(show_text::proofs::PageLaws::pages), unfolding(crate::specs::Trace::refused_answer))]
fn put_refused(page: &mut Page, number: u32)
    ensures { page.new ≡ with_text page.old (refused_answer number) }
{
    page.text(b"refused ");
    page.decimal(number);
    page.text(b" (");
    show_refusal::put_meaning(page, number);
    page.text(b")");
}

fn put_applied(page: &mut Page, passed: u32, noops: u32)
    ensures { page.new ≡ with_text page.old (applied_answer passed noops) }
{
    page.text(b"applied, ");
    page.decimal(passed);
    page.text(b" versions, ");
    page.decimal(noops);
    page.text(b" no-ops");
}

#[tactic(auto, using(show_text::proofs::PageLaws::pages), unfolding(crate::specs::Trace::answer_text))]
fn put_answer(page: &mut Page, answer: Answer)
    ensures { page.new ≡ with_text page.old (answer_text answer) }
{
    match answer {
        Err(refusal) => put_refused(page, refusal.number()),
        Ok(Delivery::Pending) => page.text(b"pending"),
        Ok(Delivery::Applied { passed, noops }) => put_applied(page, passed, noops),
    }
}

// What a message says; nothing of one that reading refuses.
#[tactic(auto, using(show_text::proofs::PageLaws::pages), unfolding(crate::specs::Trace::said_part))]
fn put_said_part(page: &mut Page, m: &[u8])
    ensures { page.new ≡ with_text page.old (said_part m.now (reading_of m.now)) }
{
    if let Ok(ReadMessage { message, fields: _ }) = wire_read::read(m) {
        show_message::put_said(page, m, message);
        page.text(b": ");
    }
}

// The line of a delivery that answered so and left those words.
fn put_delivery(page: &mut Page, place: u32, m: &[u8], answer: Answer, w: &[u32])
    ensures { page.new ≡ with_text page.old (delivery_line place m.now (record { answer = answer; words = w.now })) }
{
    page.decimal(place);
    page.text(b": ");
    put_said_part(page, m);
    put_answer(page, answer);
    page.text(b"; ");
    put_state(page, w);
    page.text(b"\n");
}

// Delivers a message to the words and puts its line at the buffer's start, as much of it as there is room for.
#[tactic(auto, unfolding(show_text::specs::Page::with_text))]
pub fn deliver_line(w: &mut [u32], place: u32, m: &[u8], buf: &mut [u8]) -> usize
    ensures next { w.new ≡ (deliver_of w.old m.now).words }
    ensures line { Puts buf.old 0 (delivery_line place m.now (deliver_of w.old m.now)) buf.new result }
{
    let answer = replica::deliver_in(w, m);
    let mut page = Page { buf, at: 0 };
    put_delivery(&mut page, place, m, answer, w);
    page.at
}

#[tactic(auto, using(show_text::proofs::PageLaws::pages), unfolding(show_text::specs::Text::named))]
fn put_kind(page: &mut Page, kind: u32, id: u32)
    ensures { page.new ≡ with_text page.old (named (kind_word kind) id) }
{
    show_listing::kind(page, kind);
    page.decimal(id);
}

// The end of an entry's line, of the row of its name: the name, and how many characters it has.
#[tactic(auto, using(show_text::proofs::PageLaws::pages), unfolding(crate::specs::Trace::name_start))]
fn put_name(page: &mut Page, row: &[u32])
    requires { name_width ≤ length row.now }
    ensures { page.new ≡ with_text page.old (name_start (name_of row.now)) }
{
    page.text(b" name ");
    show_escaped::put_name(page, row);
    page.named(b" ", names::name_characters(row));
    page.text(b"\n");
}

// The line of an entry's row.
fn put_entry(page: &mut Page, row: &[u32])
    requires { entry_width ≤ length row.now }
    ensures { page.new ≡ with_text page.old (entry_start (entry_of row.now)) }
{
    put_kind(page, row[0], row[1]);
    page.named(b" version ", row[4]);
    page.named(b" owner ", row[2]);
    page.named(b" flags ", row[3]);
    page.named(b" dnet ", row[5]);
    put_name(page, &row[ENTRY_NUMBERS..]);
}

// The lines of rows.
fn put_entries(page: &mut Page, rows: Entries<'_>)
    ensures { page.new ≡ with_text page.old (flat_map entry_start (entries_in rows.entry.count rows.entry.words.now)) }
{
    for row in rows.each() {
        put_entry(page, row);
    }
}

// The line of a membership's row.
#[tactic(auto, using(show_text::proofs::PageLaws::pages), unfolding(crate::specs::Trace::member_start))]
fn put_member(page: &mut Page, row: &[u32])
    requires { membership_width ≤ length row.now }
    ensures { page.new ≡ with_text page.old (member_start (membership_of row.now)) }
{
    page.named(b"member ", row[0]);
    page.named(b" ", row[1]);
    page.text(b"\n");
}

fn put_members(page: &mut Page, rows: Memberships<'_>)
    ensures { page.new ≡ with_text page.old (flat_map member_start (memberships_in rows.entry.count rows.entry.words.now)) }
{
    for row in rows.each() {
        put_member(page, row);
    }
}

// The whole name table of a valid replica.
fn put_table(page: &mut Page, w: &[u32])
    requires { valid_of w.now ≡ true }
    ensures { page.new ≡ with_text page.old (table_start w.now) }
{
    put_state(page, w);
    page.text(b"\n");
    put_entries(page, table_words::entries(w));
    put_members(page, table_words::memberships(w));
}

#[tactic(auto, using(show_text::proofs::PageLaws::pages), unfolding(crate::specs::Trace::refused_start))]
fn put_refused_line(page: &mut Page, number: u32)
    ensures { page.new ≡ with_text page.old (refused_start number) }
{
    put_refused(page, number);
    page.text(b"\n");
}

fn put_start(page: &mut Page, number: u32, w: &[u32])
    ensures { page.new ≡ with_text page.old (start_text number w.now) }
{
    page.text(b"snapshot: ");
    if number != 0 {
        return put_refused_line(page, number);
    }
    if !replica::is_valid(w) {
        return put_refused_line(page, Refusal::ReplicaNotValid.number());
    }
    put_table(page, w)
}

// Puts the lines of a snapshot that was read at the buffer's start: its number, or the name table that it gave.
#[tactic(auto, unfolding(show_text::specs::Page::with_text))]
pub fn start_lines(number: u32, w: &[u32], buf: &mut [u8]) -> usize
    ensures { Puts buf.old 0 (start_text number w.now) buf.new result }
{
    let mut page = Page { buf, at: 0 };
    put_start(&mut page, number, w);
    page.at
}
