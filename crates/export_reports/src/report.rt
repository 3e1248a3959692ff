// A report: 91 bytes on a builder.
ghost use Rattle.std.specs.Prelude.{◌≡◌};
ghost use Rattle.lent_bytes.specs.Bytes.{joined, four_bytes};
ghost use Rattle.lent_text.specs.Printed.{Printed};
ghost use Rattle.export_reports.specs.Report.{pattern_of, builder_bytes, call_bytes, reply_bytes, calls_bytes, report_of};

use base_builder::ConsensusBaseBuilder;
use export_scripts::Progress;
use export_ways::Way;
use gap_tables::UnanimousGapTables;
use lane_calls::Call;
use lent_text::Printer;

// Numbers by their bit patterns of 8 bytes, the low byte first. Inlined, as is all that a builder's bytes are
// put by, so that each byte's place in them is a constant.
#[inline(always)]
pub fn put_patterns(p: &mut Printer, numbers: &[f64])
    ensures { Printed p.old p.new (joined pattern_of numbers.now) }
{
    // A place that is read is known to be one, also where there are no numbers.
    let _at = p.at;
    for x in numbers {
        p.bytes(&float::pattern(*x).to_le_bytes());
    }
}

// Counts of 4 bytes.
#[inline(always)]
pub fn put_counts(p: &mut Printer, counts: &[u32])
    ensures { Printed p.old p.new (joined four_bytes counts.now) }
{
    let _at = p.at;
    for n in counts {
        p.four(*n);
    }
}

#[inline(always)]
fn put_builder(p: &mut Printer, builder: &ConsensusBaseBuilder)
    ensures { Printed p.old p.new (builder_bytes builder.now) }
{
    put_patterns(p, &builder.likelihoods);
    put_patterns(p, &builder.compensations);
    put_counts(p, &builder.observations);
}

// A builder in 80 bytes.
#[inline(always)]
pub fn builder_bytes(builder: &ConsensusBaseBuilder) -> [u8; 80]
    ensures { result ≡ builder_bytes builder.now }
{
    // kept: rule of the project: no heap, so a builder's bytes are a fixed array
    let mut bytes = [0; 80];
    let mut p = Printer {
        out: &mut bytes,
        at: 0,
    };
    put_builder(&mut p, builder);
    bytes
}

fn put_call(p: &mut Printer, call: Call)
    ensures { Printed p.old p.new (call_bytes call) }
{
    p.bytes(&[call.base, call.qual.0]);
}

fn put_reply(p: &mut Printer, reply: Option<Call>)
    ensures { Printed p.old p.new (reply_bytes reply) }
{
    match reply {
        Some(call) => p.bytes(&[1, call.base, call.qual.0]),
        None => p.bytes(&[0; 3]),
    }
}

// The four calls of a builder: both shortcuts, the long calculation, the call.
fn put_calls<W: Way>(p: &mut Printer, builder: &ConsensusBaseBuilder, gaps: &UnanimousGapTables)
    ensures { Printed p.old p.new (calls_bytes gaps.now builder.now) }
{
    let unanimous = W::try_unanimous_fast_path(builder, gaps);
    let multibase = builder.try_multibase_fast_path();
    put_reply(p, unanimous);
    put_reply(p, multibase);
    put_call(p, builder.call_full());
    put_call(p, W::call(builder, gaps));
}

pub(crate) fn put_report<W: Way>(p: &mut Printer, progress: &Progress, gaps: &UnanimousGapTables)
    ensures { Printed p.old p.new (report_of gaps.now progress.now) }
{
    put_builder(p, &progress.builder);
    put_calls::<W>(p, &progress.builder, gaps);
    p.byte(progress.refused);
}
