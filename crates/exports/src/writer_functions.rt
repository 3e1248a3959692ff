// A column file written by parts: the writer is one number that the caller keeps.
ghost use Rattle.std.specs.Prelude.{◌≡◌};
ghost use Rattle.column_writer.specs.declared.stages.PartKind.TheVariants.{Settings as settings, Column as column, Strings as strings};
ghost use Rattle.column_writer.specs.Writing.{new_writer};
ghost use Rattle.export_writer.specs.Numbers.{writer_number};
ghost use Rattle.export_writer.specs.Replies.{reply_of, write_in, finish_in, file_by, written_by};

use column_writer::PartKind;

#[unsafe(no_mangle)]
pub extern "C" fn consensus_writer() -> u64
    ensures { result ≡ writer_number new_writer }
{
    export_writer::new_writer()
}

// The settings, with the number of columns that are to come.
#[unsafe(no_mangle)]
pub extern "C" fn consensus_write_settings(writer: u64, part: &[u8], file: &mut [u8]) -> u64
    ensures reply { result ≡ reply_of (write_in writer settings part.now file.old) }
    ensures lent { file.new ≡ file_by writer settings part.now file.old }
{
    export_writer::write(writer, PartKind::Settings, part, file)
}

// One column.
#[unsafe(no_mangle)]
pub extern "C" fn consensus_write_column(writer: u64, part: &[u8], file: &mut [u8]) -> u64
    ensures reply { result ≡ reply_of (write_in writer column part.now file.old) }
    ensures lent { file.new ≡ file_by writer column part.now file.old }
{
    export_writer::write(writer, PartKind::Column, part, file)
}

// The string set.
#[unsafe(no_mangle)]
pub extern "C" fn consensus_write_strings(writer: u64, part: &[u8], file: &mut [u8]) -> u64
    ensures reply { result ≡ reply_of (write_in writer strings part.now file.old) }
    ensures lent { file.new ≡ file_by writer strings part.now file.old }
{
    export_writer::write(writer, PartKind::Strings, part, file)
}

#[unsafe(no_mangle)]
pub extern "C" fn consensus_write_finish(writer: u64) -> u64
    ensures { result ≡ reply_of (finish_in writer) }
{
    export_writer::finish(writer)
}

// How many bytes of the file are written, 0 for a number that is no writer's.
#[unsafe(no_mangle)]
pub extern "C" fn consensus_written(writer: u64) -> u64
    ensures { result ≡ written_by writer }
{
    export_writer::written(writer)
}
