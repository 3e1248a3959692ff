// The lines of a listing, printed one after another.
#![tactic(auto)]

ghost use Rattle.std.specs.Prelude.{◌∷◌};
ghost use Rattle.lent_bytes.specs.Bytes.{joined};
ghost use Rattle.lent_text.specs.Text.{decimal, space};
ghost use Rattle.lent_text.specs.Printed.{Printed};
ghost use Rattle.column_file.specs.Places.{columns_at};
ghost use Rattle.column_calls.specs.Callers.{called_by};
ghost use Rattle.listing_lines.specs.Lines.{umi_line, text_of};
ghost use Rattle.listing_lines.specs.Tables.{line_with, lines_with, text_with};

use base_builder::total;
use column_calls::{ColumnCall, ColumnCaller};
use column_file::Columns;
use lent_text::Printer;

// A further field: a space and a number.
fn put_field(p: &mut Printer, n: u64)
    ensures { Printed p.old p.new (space ∷ decimal n) }
{
    p.byte(b' ');
    p.decimal(n);
}

// The counts of A, C, G and T.
fn put_counts(p: &mut Printer, counts: [u32; 4])
    ensures { Printed p.old p.new (joined (λ n. space ∷ decimal n) counts) }
{
    // Read once, so that the proof knows its range.
    let _from = p.at;
    for count in counts {
        put_field(p, u64::from(count));
    }
}

fn put_line(p: &mut Printer, number: u64, called: ColumnCall)
    ensures { Printed p.old p.new (line_with number called) }
{
    let ColumnCall { call, counts } = called;
    p.decimal(number);
    p.byte(b' ');
    p.byte(call.base);
    put_field(p, u64::from(call.qual.0));
    put_field(p, total(counts));
    put_counts(p, counts);
    p.byte(b'\n');
}

// A line for each column, numbered from 1.
fn put_lines(p: &mut Printer, caller: &ColumnCaller, columns: Columns)
    ensures { Printed p.old p.new (text_of (lines_with (called_by caller.now) 1 (columns_at columns.entry.file.now columns.entry.at columns.entry.left))) }
{
    // Read once, so that the proof knows its range.
    let _from = p.at;
    for (before, column) in columns.enumerate() {
        put_line(p, before as u64 + 1, caller.call(column));
    }
}

fn put_umi(p: &mut Printer, text: &[u8], had_errors: bool)
    ensures { Printed p.old p.new (umi_line text.now had_errors) }
{
    p.bytes(b"umi ");
    p.bytes(text);
    if had_errors {
        p.bytes(b" true\n");
    } else {
        p.bytes(b" false\n");
    }
}

// The whole text, by any caller.
pub fn put_text(
    p: &mut Printer,
    caller: &ColumnCaller,
    columns: Columns,
    text: &[u8],
    had_errors: bool,
)
    ensures { Printed p.old p.new (text_with (called_by caller.now) (columns_at columns.entry.file.now columns.entry.at columns.entry.left) text.now had_errors) }
{
    p.bytes(b"column base quality depth A C G T\n");
    put_lines(p, caller, columns);
    put_umi(p, text, had_errors);
}
