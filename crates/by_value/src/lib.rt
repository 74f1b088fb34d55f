// The calls that take or hand back a replica by value, under names that C can call. bench/stack measures them here; a program in C has
// the calls of c_api, which are lent a replica where it stands.
#![tactic(auto)]

ghost use Rattle.std.specs.Prelude.{◌≡◌, length};
ghost use Rattle.table_words.specs.Words.{fresh_words};
ghost use Rattle.replica.specs.Deliver.{deliver_of};
ghost use Rattle.batch.specs.Batch.{record_of, batch_answer, batch_words, batch_records};
ghost use Rattle.snapshot.specs.Saved.{loaded_of, saved_of, saved_buffer};
ghost use Rattle.c_types.specs.Answers.{written_data};

use batch::{AnswerRecord, Batched};
use c_types::WrittenData;
use replica::Replica;
use snapshot::Loaded;

// replica::Delivered, its answer as a struct.
#[repr(C)]
#[derive(Clone, Copy)]
pub struct DeliveredData {
    pub answer: AnswerRecord,
    pub replica: Replica,
}

#[unsafe(no_mangle)]
pub extern "C" fn by_value_fresh() -> Replica
    ensures { result.words ≡ fresh_words }
{
    Replica::fresh()
}

#[unsafe(no_mangle)]
pub extern "C" fn by_value_deliver(replica: Replica, message: &[u8]) -> DeliveredData
    ensures answer { result.answer ≡ record_of (deliver_of replica.words message.now).answer }
    ensures replica { result.replica.words ≡ (deliver_of replica.words message.now).words }
{
    let next = replica.deliver(message);
    let answer = next.answer;
    let replica = next.replica;
    DeliveredData {
        answer: batch::record_of(answer),
        replica,
    }
}

#[unsafe(no_mangle)]
pub extern "C" fn by_value_batch(
    replica: Replica,
    messages: &[u8],
    records: &mut [AnswerRecord],
) -> Batched
    ensures answer { result.answer ≡ batch_answer replica.words messages.now (length records.old) }
    ensures words { result.replica.words ≡ batch_words replica.words messages.now (length records.old) }
    ensures records { records.new ≡ batch_records replica.words messages.now records.old }
{
    batch::batch(replica, messages, records)
}

#[unsafe(no_mangle)]
pub extern "C" fn by_value_snapshot_read(bytes: &[u8]) -> Loaded
    ensures { record { number = result.number; words = result.replica.words } ≡ loaded_of bytes.now }
{
    snapshot::read(bytes)
}

#[unsafe(no_mangle)]
pub extern "C" fn by_value_snapshot_write(replica: Replica, buffer: &mut [u8]) -> WrittenData
    ensures answer { result ≡ written_data (saved_of replica.words (length buffer.old)) }
    ensures buffer { buffer.new ≡ saved_buffer replica.words buffer.old }
{
    c_types::written_data(snapshot::write(replica, buffer))
}
