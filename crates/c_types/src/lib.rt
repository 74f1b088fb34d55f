// What the library answers, as the structs of include/dp8.h, with the same fields in the same order. Those of a delivery and a batch are
// in crate batch, which writes them.
#![tactic(auto)]

mod answers;
mod reading;

pub use answers::{next_host_data, written_data};
pub use reading::reading_data;

// dp8_part: C is handed this struct, whether there is a field beside where it lies
#[repr(C)]
#[derive(Clone, Copy)]
pub struct Part {
    pub present: bool,
    pub start: usize,
    pub size: usize,
    pub characters: usize,
}

// How many words the values of a type may have: those of connect info.
pub const VALUES: usize = 10;

// What a message says. The values are the words of the type's struct in C's union, and zeros.
#[repr(C)]
#[derive(Clone, Copy)]
pub struct Said {
    pub kind: u32,
    pub values: [u32; VALUES],
    pub version_not_used: u32,
}

// dp8_reading: C is handed this struct, the number beside what was read
#[repr(C)]
#[derive(Clone, Copy)]
pub struct ReadingData {
    pub number: u32,
    pub said: Said,
    pub name: Part,
    pub data: Part,
    pub password: Part,
    pub connect_data: Part,
    pub url: Part,
    pub alternate_address: Part,
}

// dp8_written: C is handed this struct, the number beside the bytes
#[repr(C)]
#[derive(Clone, Copy)]
pub struct WrittenData {
    pub number: u32,
    pub bytes: usize,
}

// dp8_next_host: C is handed this struct, the number beside the id
#[repr(C)]
#[derive(Clone, Copy)]
pub struct NextHostData {
    pub number: u32,
    pub id: u32,
}
