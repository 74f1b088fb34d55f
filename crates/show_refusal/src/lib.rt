// What a refusal's number means, in words, for programs that tell people.
#![tactic(auto, using(show_text::proofs::PageLaws::pages))]

ghost use Rattle.std.specs.Prelude.{◌≡◌};
ghost use Rattle.show_text.specs.Page.{with_text};
ghost use Rattle.show_refusal.specs.Meaning.{meaning};

use show_text::Page;

// The words of a number of crate refusal; any other has none.
#[tactic(auto, using(crate::proofs::MeaningLaws::meant))]
fn words(n: u32) -> &'static [u8]
    ensures { result.now ≡ meaning n }
{
    match n {
        1 => b"message over 16384 bytes",
        2 => b"message under 4 bytes",
        3 => b"type not listed",
        4 => b"shorter than its fixed part",
        5 => b"longer than its fixed part",
        6 => b"flags neither client nor peer",
        7 => b"an id is 0",
        8 => b"one of offset and size is 0, the other not",
        9 => b"field not within the message behind its fixed part",
        10 => b"name, password or URL ill-formed",
        11 => b"not readable once written",
        12 => b"buffer too short",
        13 => b"no operation",
        14 => b"version already passed",
        15 => b"version more than 32 ahead",
        16 => b"already pending",
        17 => b"another operation of this version is pending",
        21 => b"snapshot length",
        22 => b"snapshot format",
        23 => b"snapshot counts",
        24 => b"snapshot entry",
        25 => b"snapshot host",
        26 => b"snapshot membership",
        27 => b"snapshot buffer too short",
        28 => b"replica not valid",
        29 => b"more messages than records",
        _ => b"",
    }
}

// Puts what a number means; nothing for one that has no words.
pub fn put_meaning(page: &mut Page, n: u32)
    ensures { page.new ≡ with_text page.old (meaning n) }
{
    page.text(words(n));
}
