// The snapshot, read and written.
ghost use Rattle.std.specs.Prelude.{◌≡◌, length};
ghost use Rattle.snapshot.specs.Saved.{loaded_of, saved_of, saved_buffer};
ghost use Rattle.c_types.specs.Answers.{written_data};

use c_types::{WrittenData, written_data};
use refusal::number_of;
use table_words::WORDS;

// Whatever words the replica had, they do not matter.
#[unsafe(no_mangle)]
pub extern "C" fn dp8_snapshot_read(replica: &mut [u32; WORDS], snapshot: &[u8]) -> u32
    ensures { record { number = result; words = replica.new } ≡ loaded_of snapshot.now }
{
    number_of(&snapshot::read_in(replica, snapshot))
}

#[unsafe(no_mangle)]
pub extern "C" fn dp8_snapshot_write(replica: &[u32; WORDS], buffer: &mut [u8]) -> WrittenData
    ensures answer { result ≡ written_data (saved_of replica.now (length buffer.old)) }
    ensures buffer { buffer.new ≡ saved_buffer replica.now buffer.old }
{
    written_data(snapshot::write_from(replica, buffer))
}
