// What is printed of a refused input, whichever the program: its number, on a line of its own.
#![tactic(auto)]

ghost use Rattle.std.specs.Prelude.{◌≡◌};
ghost use Rattle.lent_bytes.specs.Buffer.{written, written_length};
ghost use Rattle.lent_text.specs.Printed.{Printed};
ghost use Rattle.refusal_text.specs.RefusalText.{refusal_line};

use lent_text::Printer;
use refusals::Refusal;

// The line.
fn put_refusal(p: &mut Printer, refusal: Refusal)
    ensures { Printed p.old p.new (refusal_line refusal) }
{
    p.bytes(b"refused ");
    p.decimal(u64::from(u8::from(refusal)));
    p.byte(b'\n');
}

// The line, where it fits, and how long it is. A buffer that is too short is left as it is.
pub fn print_refusal(refusal: Refusal, out: &mut [u8]) -> Option<usize>
    ensures reply { result ≡ written_length (refusal_line refusal) out.old }
    ensures lent { out.new ≡ written (refusal_line refusal) out.old }
{
    // kept: rule of the project: no heap, so the line is made aside in a fixed array
    let mut aside = [0u8; 16];
    let mut p = Printer {
        out: &mut aside,
        at: 0,
    };
    put_refusal(&mut p, refusal);
    let n = p.at;
    lent_bytes::write_front(out, &aside[..n]).then_some(n)
}
