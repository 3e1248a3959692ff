// The steps of writing by a writer's number. A reply below 256 is the number of a refusal, and the caller
// keeps the writer that it had; any other is the writer afterwards.
ghost use Rattle.std.specs.Prelude.{◌≡◌};
ghost use Rattle.column_writer.specs.Writing.{new_writer};
ghost use Rattle.export_writer.specs.Numbers.{writer_number};
ghost use Rattle.export_writer.specs.Replies.{reply_of, write_in, finish_in, file_by, written_by};

use crate::numbers::{number_of, writer_of};
use column_writer::{PartKind, Writer};
use refusals::Refusal;

// The reply to a step.
fn reply(step: Result<Writer, Refusal>) -> u64
    ensures { result ≡ reply_of step }
{
    match step {
        Ok(writer) => number_of(writer),
        Err(refusal) => u64::from(u8::from(refusal)),
    }
}

// A new writer's number.
pub fn new_writer() -> u64
    ensures { result ≡ writer_number new_writer }
{
    number_of(Writer::new())
}

// A part for the writer of a number.
pub fn write(writer: u64, kind: PartKind, part: &[u8], file: &mut [u8]) -> u64
    ensures reply { result ≡ reply_of (write_in writer kind part.now file.old) }
    ensures lent { file.new ≡ file_by writer kind part.now file.old }
{
    reply(put(writer, kind, part, file))
}

// The writer afterwards.
#[tactic(auto, unfolding(crate::specs::Replies::write_in, crate::specs::Replies::file_by))]
fn put(writer: u64, kind: PartKind, part: &[u8], file: &mut [u8]) -> Result<Writer, Refusal>
    ensures answer { result ≡ write_in writer kind part.now file.old }
    ensures lent { file.new ≡ file_by writer kind part.now file.old }
{
    writer_of(writer)?.put(kind, part, file)
}

// The finish.
#[tactic(auto, unfolding(crate::specs::Replies::finish_in))]
pub fn finish(writer: u64) -> u64
    ensures { result ≡ reply_of (finish_in writer) }
{
    reply(writer_of(writer).and_then(|w| w.finish()))
}

// How many bytes of the file are written, 0 for a number that is no writer's.
#[tactic(auto, unfolding(crate::specs::Replies::written_by))]
pub fn written(writer: u64) -> u64
    ensures { result ≡ written_by writer }
{
    writer_of(writer).map_or(0, |w| w.written as u64)
}
