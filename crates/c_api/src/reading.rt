// Reading a message.
ghost use Rattle.std.specs.Prelude.{◌≡◌};
ghost use Rattle.wire_read.specs.Read.{reading_of};
ghost use Rattle.c_types.specs.Reading.{reading_data};

use c_types::ReadingData;

#[unsafe(no_mangle)]
pub extern "C" fn dp8_read(message: &[u8]) -> ReadingData
    ensures { result ≡ reading_data (reading_of message.now) }
{
    c_types::reading_data(wire_read::read(message))
}
