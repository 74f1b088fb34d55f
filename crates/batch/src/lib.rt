// A batch: framed messages, delivered in turn to a replica where it stands, and the answer to each in its own record of a run that the
// caller lends. Validity is tested once: a delivery keeps it.
#![tactic(auto)]

ghost use Rattle.std.specs.Prelude.{◌≡◌, true, false, length, leb};
ghost use Rattle.refusal.specs.Numbers.{number};
ghost use Rattle.replica.specs.Valid.{valid_of};
ghost use Rattle.batch.specs.Batch.{record_by, batch_answer, batch_words, batch_records};
ghost use Rattle.batch.specs.Inner.{turn_of, message_at};
ghost use Rattle.replica.specs.Deliver.{deliver_of};

use framing::Count;
use refusal::{Reason, Refusal};
use replica::{Delivery, Replica};

// What a delivery answers, as C is handed it, a number beside values: the refusal's number; or 0, with no versions passed where the
// operation waits.
#[repr(C)]
#[derive(Clone, Copy)]
pub struct AnswerRecord {
    pub number: u32,
    pub passed: u32,
    pub noops: u32,
}

// What a batch answers, as C is handed it: the number it was refused with, or 0; how many messages were delivered; whether a tail was
// cut.
#[repr(C)]
#[derive(Clone, Copy)]
pub struct BatchAnswer {
    pub number: u32,
    pub count: usize,
    pub cut: bool,
}

// The answer and the next replica, as C is handed them.
#[repr(C)]
#[derive(Clone, Copy)]
pub struct Batched {
    pub answer: BatchAnswer,
    pub replica: Replica,
}

// What delivering one message of the buffer comes to: its answer, and the place of the next message.
#[derive(Clone, Copy)]
pub struct Turn {
    pub at: usize,
    pub answer: AnswerRecord,
}

fn told(number: u32, passed: u32, noops: u32) -> AnswerRecord
    ensures { result ≡ record { number = number; passed = passed; noops = noops } }
{
    AnswerRecord {
        number,
        passed,
        noops,
    }
}

// An answer as its record, whatever it is refused with: a refusal of a delivery, or any number.
pub fn record_of<E: Reason>(answer: Result<Delivery, E>) -> AnswerRecord
    ensures { result ≡ record_by E.said answer }
{
    match answer {
        Err(why) => told(why.as_number(), 0, 0),
        Ok(Delivery::Pending) => told(0, 0, 0),
        Ok(Delivery::Applied { passed, noops }) => told(0, passed, noops),
    }
}

// A batch that is refused whole delivers none.
fn refused(why: Refusal) -> BatchAnswer
    ensures { result ≡ record { number = number why; count = 0; cut = false } }
{
    BatchAnswer {
        number: why.number(),
        count: 0,
        cut: false,
    }
}

// Whether there is a record for each whole message; a tail needs none.
fn has_room(room: usize, framed: Count) -> bool
    ensures { result ≡ leb framed.messages room }
{
    framed.messages <= room
}

// What the batch will answer, so how many messages are to be delivered.
#[tactic(auto, using(crate::proofs::PlanLaws::plans), unfolding(framing::specs::Frames::count_of))]
fn begin(w: &[u32], m: &[u8], room: usize) -> BatchAnswer
    ensures { result ≡ batch_answer w.now m.now room }
{
    if !replica::is_valid(w) {
        return refused(Refusal::ReplicaNotValid);
    }
    let framed = framing::counted(m);
    if !has_room(room, framed) {
        return refused(Refusal::TooFewRecords);
    }
    BatchAnswer {
        number: refusal::ACCEPTED,
        count: framed.messages,
        cut: framed.cut,
    }
}

// Delivers the message at a place.
#[tactic(auto, unfolding(crate::specs::Inner::turn_of))]
fn next(w: &mut [u32], m: &[u8], at: usize) -> Turn
    requires { valid_of w.old ≡ true }
    ensures { (result ≡ turn_of w.old m.now at)
        × (w.new ≡ (deliver_of w.old (message_at m.now at)).words) }
{
    let answer = replica::deliver_valid(w, framing::first(framing::back(m, at)));
    Turn {
        at: framing::next(m, at),
        answer: record_of(answer),
    }
}

// Delivers the messages of a buffer, each after its length, and puts the answer to each into its own record.
#[tactic(auto, using(crate::proofs::LoopLaws::loop_turns))]
pub fn batch_in(w: &mut [u32], m: &[u8], records: &mut [AnswerRecord]) -> BatchAnswer
    ensures answer { result ≡ batch_answer w.old m.now (length records.old) }
    ensures words { w.new ≡ batch_words w.old m.now (length records.old) }
    ensures records { records.new ≡ batch_records w.old m.now records.old }
{
    let answer = begin(w, m, records.len());
    let mut at: usize = 0;
    for i in 0..answer.count {
        let turn = next(w, m, at);
        records[i] = turn.answer;
        at = turn.at;
    }
    answer
}

// The same with the replica by value.
pub fn batch(replica: Replica, m: &[u8], records: &mut [AnswerRecord]) -> Batched
    ensures answer { result.answer ≡ batch_answer replica.words m.now (length records.old) }
    ensures words { result.replica.words ≡ batch_words replica.words m.now (length records.old) }
    ensures records { records.new ≡ batch_records replica.words m.now records.old }
{
    let mut w = replica.words;
    let answer = batch_in(&mut w, m, records);
    Batched {
        answer,
        replica: Replica { words: w },
    }
}
