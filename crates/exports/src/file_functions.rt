// A column file: its listing, its records, or how long its calls take.
ghost use Rattle.std.specs.Prelude.{◌≡◌};
ghost use Rattle.lent_bytes.specs.Buffer.{length_written, written};
ghost use Rattle.export_timing.specs.Columns.{calls_of};
ghost use Rattle.column_listing.specs.Listing.{listing_of};
ghost use Rattle.column_listing.specs.Answers.{listed_in, listing_buffer};
ghost use Rattle.column_records.specs.Records.{records_in};
ghost use Rattle.export_listing.specs.Reply.{listing_reply};

use crate::reply;

// The text that the program prints, and its length; 0 where the buffer is too short.
#[unsafe(no_mangle)]
pub extern "C" fn consensus_list(file: &[u8], out: &mut [u8]) -> u64
    ensures reply { result ≡ length_written (listing_of file.now) out.old }
    ensures lent { out.new ≡ written (listing_of file.now) out.old }
{
    reply(column_listing::print(file, out))
}

// The listing, or the number of a refusal: below 256 that number, 10 where the buffer is too short, and
// else 256 and the text's length.
#[unsafe(no_mangle)]
pub extern "C" fn consensus_listing(file: &[u8], out: &mut [u8]) -> u64
    ensures reply { result ≡ listing_reply (listed_in file.now out.old) }
    ensures lent { out.new ≡ listing_buffer out.old (listed_in file.now out.old) }
{
    export_listing::listing(file, out)
}

// For each column 28 bytes, numbers low byte first: base, quality, two zeros, and four bytes each for the
// depth (the sum of the four counts), the counts of A, C, G and T, and how many observations were ignored.
// The reply is as that of `consensus_listing`.
#[unsafe(no_mangle)]
pub extern "C" fn consensus_records(file: &[u8], out: &mut [u8]) -> u64
    ensures reply { result ≡ listing_reply (records_in file.now out.old) }
    ensures lent { out.new ≡ listing_buffer out.old (records_in file.now out.old) }
{
    export_listing::records(file, out)
}

// For timing: every column called that number of times, all bases and qualities added up.
#[unsafe(no_mangle)]
pub extern "C" fn consensus_calls(file: &[u8], times: u32) -> u64
    ensures { result ≡ calls_of file.now times }
{
    export_timing::calls(file, times).unwrap_or(0)
}
