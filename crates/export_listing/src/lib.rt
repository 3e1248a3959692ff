// The listing of a file, or its records, with one number as the reply: what C or Rust asks for where the
// text of a refusal is not wanted.
#![tactic(auto)]

ghost use Rattle.std.specs.Prelude.{◌≡◌, ◌≤◌, IfOk};
ghost use Rattle.column_listing.specs.Answers.{listed_in, listing_buffer};
ghost use Rattle.column_records.specs.Records.{records_in};
ghost use Rattle.export_listing.specs.Reply.{listing_reply, length_reply};

use refusals::Refusal;

fn reply(length: Result<usize, Refusal>) -> u64
    requires { IfOk length (λ n. n ≤ 2400000) }
    ensures { result ≡ length_reply length }
{
    match length {
        Ok(n) => 256 + n as u64,
        Err(refusal) => u64::from(u8::from(refusal)),
    }
}

// Below 256 the number by which the file is refused, 10 where the buffer is too short; else 256 and the
// length of the text. A refusal leaves the buffer as it is.
pub fn listing(file: &[u8], out: &mut [u8]) -> u64
    ensures reply { result ≡ listing_reply (listed_in file.now out.old) }
    ensures lent { out.new ≡ listing_buffer out.old (listed_in file.now out.old) }
{
    reply(column_listing::list(file, out))
}

// The same of the records.
pub fn records(file: &[u8], out: &mut [u8]) -> u64
    ensures reply { result ≡ listing_reply (records_in file.now out.old) }
    ensures lent { out.new ≡ listing_buffer out.old (records_in file.now out.old) }
{
    reply(column_records::records(file, out))
}
