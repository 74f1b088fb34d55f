// The calls on a replica.
ghost use Rattle.std.specs.Prelude.{◌≡◌, length};
ghost use Rattle.characters.specs.Characters.{characters};
ghost use Rattle.names.specs.Words.{name_of};
ghost use Rattle.table_words.specs.Words.{fresh_words};
ghost use Rattle.replica.specs.Valid.{valid_of};
ghost use Rattle.replica.specs.Deliver.{deliver_of, next_host_answer};
ghost use Rattle.batch.specs.Batch.{record_of, batch_answer, batch_words, batch_records};
ghost use Rattle.c_types.specs.Answers.{next_host_data};

use batch::{AnswerRecord, BatchAnswer};
use c_types::NextHostData;
use names::NAME_WIDTH;
use table_words::WORDS;

#[unsafe(no_mangle)]
pub extern "C" fn dp8_replica_fresh(replica: &mut [u32; WORDS])
    ensures { replica.new ≡ fresh_words }
{
    rows::clear(replica);
}

#[unsafe(no_mangle)]
pub extern "C" fn dp8_replica_is_valid(replica: &[u32; WORDS]) -> bool
    ensures { result ≡ valid_of replica.now }
{
    replica::is_valid(replica)
}

#[unsafe(no_mangle)]
pub extern "C" fn dp8_replica_deliver(replica: &mut [u32; WORDS], message: &[u8]) -> AnswerRecord
    ensures answer { result ≡ record_of (deliver_of replica.old message.now).answer }
    ensures replica { replica.new ≡ (deliver_of replica.old message.now).words }
{
    batch::record_of(replica::deliver_in(replica, message))
}

// `messages` has them one after another, each after its length; `records` has a place for the answer to each.
#[unsafe(no_mangle)]
pub extern "C" fn dp8_replica_batch(
    replica: &mut [u32; WORDS],
    messages: &[u8],
    records: &mut [AnswerRecord],
) -> BatchAnswer
    ensures answer { result ≡ batch_answer replica.old messages.now (length records.old) }
    ensures replica { replica.new ≡ batch_words replica.old messages.now (length records.old) }
    ensures records { records.new ≡ batch_records replica.old messages.now records.old }
{
    batch::batch_in(replica, messages, records)
}

#[unsafe(no_mangle)]
pub extern "C" fn dp8_replica_next_host(replica: &[u32; WORDS]) -> NextHostData
    ensures { result ≡ next_host_data (next_host_answer replica.now) }
{
    c_types::next_host_data(replica::next_host(replica))
}

// The name of an entry or of a pending operation is lent as its words.
#[unsafe(no_mangle)]
pub extern "C" fn dp8_name_characters(name: &[u32; NAME_WIDTH]) -> u32
    ensures { result ≡ characters (name_of name.now) }
{
    names::name_characters(name)
}
