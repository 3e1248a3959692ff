// The tables of a pair of rates, as bytes.
ghost use Rattle.std.specs.Prelude.{◌≡◌};
ghost use Rattle.lent_bytes.specs.Buffer.{length_written, written};
ghost use Rattle.export_tables.specs.Tables.{table_bytes};

use crate::reply;
use phred::PhredScore;

// Into a buffer of 3,016 bytes or more.
#[unsafe(no_mangle)]
pub extern "C" fn consensus_tables(pre: u8, post: u8, out: &mut [u8]) -> u64
    ensures reply { result ≡ length_written (table_bytes pre post) out.old }
    ensures lent { out.new ≡ written (table_bytes pre post) out.old }
{
    reply(export_tables::tables(PhredScore(pre), PhredScore(post), out))
}
