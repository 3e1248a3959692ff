// The tables of a pair of rates, as bytes.
#![tactic(auto)]

ghost use Rattle.std.specs.Prelude.{◌≡◌, leb, length, is_some, unwrap_or};
ghost use Rattle.lent_bytes.specs.Buffer.{length_written, written};
ghost use Rattle.lent_text.specs.Printed.{Printed};
ghost use Rattle.export_tables.specs.Tables.{bytes_of_tables, table_bytes};

use export_reports::put_patterns;
use gap_tables::UnanimousGapTables;
use lent_text::Printer;
use phred::PhredScore;
use rate_tables::AdjustedProbabilityTables;

// correct, error_per_alt, thresholds and cerr_min as 94 bit patterns each, then the cap: numbers of 8
// bytes, low byte first; and how many bytes that are. A buffer of less than 3,016 bytes is left as it is.
pub fn tables(pre: PhredScore, post: PhredScore, out: &mut [u8]) -> Option<usize>
    ensures reply { unwrap_or result 0 ≡ length_written (table_bytes pre.0 post.0) out.old }
    ensures some { is_some result ≡ leb 3016 (length out.old) }
    ensures lent { out.new ≡ written (table_bytes pre.0 post.0) out.old }
{
    if out.len() < 3016 {
        return None;
    }
    let adjusted = AdjustedProbabilityTables::compute(post);
    let gaps = gap_tables::build_unanimous_gap_tables(pre);
    let mut p = Printer { out, at: 0 };
    put_tables(&mut p, &adjusted, &gaps);
    Some(3016)
}

fn put_tables(p: &mut Printer, adjusted: &AdjustedProbabilityTables, gaps: &UnanimousGapTables)
    ensures { Printed p.old p.new (bytes_of_tables adjusted.now gaps.now) }
{
    put_patterns(p, &adjusted.correct);
    put_patterns(p, &adjusted.error_per_alt);
    put_patterns(p, &gaps.thresholds);
    put_patterns(p, &gaps.cerr_min);
    p.bytes(&(gaps.cap as u64).to_le_bytes());
}
