// The writer goes by value, and the file's buffer is borrowed for each part. Each part is lent in its file
// form and judged as the reader judges it.
// kept: no plainer: what is read and the buffer that is written are two borrows, which a struct would only join
ghost use Rattle.std.specs.Prelude.{◌≡◌};
ghost use Rattle.std.specs.Result.{result_unwrap_or};
ghost use Rattle.refusals.specs.Refusals.{number_in};
ghost use Rattle.column_writer.specs.declared.stages.PartKind.TheVariants.{Settings as settings, Column as column, Strings as strings};

use crate::stages::{PartKind, Stage, awaits_finish, in_turn, next_stage};
use lent_bytes::write_at;
use refusals::Refusal;
use string_set::LONGEST_FILE;

#[derive(Clone, Copy, Debug, PartialEq, Eq)]
pub struct Writer {
    pub stage: Stage,
    // How many bytes of the file are written; after the finish, how long the file is.
    pub written: usize,
}

// Each step answers the writer after it. A refusal leaves the caller's writer and the buffer as they were.
impl Writer {
    ghost use Rattle.column_writer.specs.Writing.{new_writer, put_in, finish_of, writer_after, file_after};

    pub fn new() -> Writer
        ensures { result ≡ new_writer }
    {
        Writer {
            stage: Stage::AwaitsSettings,
            written: 0,
        }
    }

    // A part, whichever it is.
    pub fn put(self, kind: PartKind, part: &[u8], file: &mut [u8]) -> Result<Writer, Refusal>
        ensures step { result ≡ put_in self kind part.now file.old }
        ensures writer { result_unwrap_or result self ≡ writer_after self (put_in self kind part.now file.old) }
        ensures lent { file.new ≡ file_after self part.now file.old (put_in self kind part.now file.old) }
        ensures number { number_in result ≡ number_in (put_in self kind part.now file.old) }
    {
        if !in_turn(self.stage, kind) {
            return Err(Refusal::OutOfTurn);
        }
        if self.written.saturating_add(part.len()) > LONGEST_FILE {
            return Err(Refusal::FileTooLong);
        }
        let stage = next_stage(self.stage, kind, part)?;
        if !write_at(file, self.written, part) {
            return Err(Refusal::NoRoomForPart);
        }
        let written = self.written + part.len();
        Ok(Writer { stage, written })
    }

    // The settings, with the number of columns that are to come.
    pub fn put_settings(self, part: &[u8], file: &mut [u8]) -> Result<Writer, Refusal>
        ensures step { result ≡ put_in self settings part.now file.old }
        ensures writer { result_unwrap_or result self ≡ writer_after self (put_in self settings part.now file.old) }
        ensures lent { file.new ≡ file_after self part.now file.old (put_in self settings part.now file.old) }
        ensures number { number_in result ≡ number_in (put_in self settings part.now file.old) }
    {
        self.put(PartKind::Settings, part, file)
    }

    // One column.
    pub fn put_column(self, part: &[u8], file: &mut [u8]) -> Result<Writer, Refusal>
        ensures step { result ≡ put_in self column part.now file.old }
        ensures writer { result_unwrap_or result self ≡ writer_after self (put_in self column part.now file.old) }
        ensures lent { file.new ≡ file_after self part.now file.old (put_in self column part.now file.old) }
        ensures number { number_in result ≡ number_in (put_in self column part.now file.old) }
    {
        self.put(PartKind::Column, part, file)
    }

    // The string set, after the last of the announced columns.
    pub fn put_strings(self, part: &[u8], file: &mut [u8]) -> Result<Writer, Refusal>
        ensures step { result ≡ put_in self strings part.now file.old }
        ensures writer { result_unwrap_or result self ≡ writer_after self (put_in self strings part.now file.old) }
        ensures lent { file.new ≡ file_after self part.now file.old (put_in self strings part.now file.old) }
        ensures number { number_in result ≡ number_in (put_in self strings part.now file.old) }
    {
        self.put(PartKind::Strings, part, file)
    }

    // After it no step is accepted.
    pub fn finish(self) -> Result<Writer, Refusal>
        ensures step { result ≡ finish_of self }
        ensures writer { result_unwrap_or result self ≡ writer_after self (finish_of self) }
        ensures number { number_in result ≡ number_in (finish_of self) }
    {
        if !awaits_finish(self.stage) {
            return Err(Refusal::OutOfTurn);
        }
        Ok(Writer {
            stage: Stage::Finished,
            ..self
        })
    }
}
