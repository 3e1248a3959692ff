// The records of a file, into a borrowed buffer.
// kept: no plainer: what is read and the buffer that is written are two borrows, which a struct would only join
ghost use Rattle.std.specs.Prelude.{◌≡◌, ◌≤◌, length};
ghost use Rattle.lent_bytes.specs.Bytes.{joined, four_bytes};
ghost use Rattle.refusals.specs.Refusals.{number_in};
ghost use Rattle.refusals.specs.Result.{map_ok};
ghost use Rattle.lent_text.specs.Printed.{Printed, last_place};
ghost use Rattle.column_file.specs.Places.{columns_at};
ghost use Rattle.column_calls.specs.Callers.{called_by};
ghost use Rattle.column_listing.specs.Answers.{listing_buffer};
ghost use Rattle.column_records.specs.Records.{record_of, records_with, records_in};

use base_builder::total;
use column_calls::{ColumnCall, ColumnCaller};
use column_file::Columns;
use judged_file::judge;
use lent_text::Printer;
use refusals::Refusal;

// The counts of A, C, G and T.
fn put_counts(p: &mut Printer, counts: [u32; 4])
    ensures { Printed p.old p.new (joined four_bytes counts) }
{
    // Read once, so that the proof knows its range.
    let _from = p.at;
    for count in counts {
        p.four(count);
    }
}

// A record of a column of n observations.
fn put_record(p: &mut Printer, called: ColumnCall, n: u64)
    ensures { Printed p.old p.new (record_of called n) }
{
    let ColumnCall { call, counts } = called;
    let depth = total(counts);
    p.bytes(&[call.base, call.qual.0, 0, 0]);
    p.low_four(depth);
    put_counts(p, counts);
    p.low_four(n.saturating_sub(depth));
}

// A record for each column.
fn put_records(p: &mut Printer, caller: &ColumnCaller, columns: Columns)
    requires { p.old.at ≤ last_place }
    ensures { Printed p.old p.new (records_with (called_by caller.now) (columns_at columns.entry.file.now columns.entry.at columns.entry.left)) }
{
    for column in columns {
        put_record(p, caller.call(column), (column.len() / 2) as u64);
    }
}

// How long the records of a file's columns are, or the number by which the file is refused: 10 where the
// buffer is too short. A refusal leaves the buffer as it is. How long they are is known before the first.
pub fn records(file: &[u8], out: &mut [u8]) -> Result<usize, Refusal>
    ensures answer { result ≡ map_ok length (records_in file.now out.old) }
    ensures lent { out.new ≡ listing_buffer out.old (records_in file.now out.old) }
    ensures number { number_in result ≡ number_in (records_in file.now out.old) }
{
    let judged = judge(file)?;
    let places = judged.places;
    if out.len() < 28 * places.count {
        return Err(Refusal::BufferTooShort);
    }
    let caller = ColumnCaller::new(places.settings);
    let mut p = Printer { out, at: 0 };
    let columns = Columns {
        file,
        at: places.columns,
        left: places.count,
    };
    put_records(&mut p, &caller, columns);
    Ok(p.at)
}
