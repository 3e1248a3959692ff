// A text that a borrowed buffer gets whole or, where it is too short, not at all.
#![tactic(auto)]

ghost use Rattle.std.specs.Prelude.{◌≡◌, ◌≤◌, List, ℕ, length, leb, min};
ghost use Rattle.lent_bytes.specs.Buffer.{written, written_length};
ghost use Rattle.lent_text.specs.Printed.{Printed, last_place};

use lent_text::Printer;

pub trait Text {
    ghost text: { Self → List ℕ };

    // No text is longer.
    fn longest(&self) -> usize
        ensures { length (text self.now) ≤ result };

    fn put(&self, p: &mut Printer)
        ensures { Printed p.old p.new (text self.now) };
}

// How long a text is: it is printed into an empty buffer, and only counted.
fn measured<T: Text>(text: &T) -> usize
    ensures { result ≡ min (length (T.text text.now)) last_place }
{
    let mut p = Printer {
        out: &mut [],
        at: 0,
    };
    text.put(&mut p);
    p.at
}

// Whether so many bytes hold the text. It is measured only where they might not.
fn fits<T: Text>(text: &T, room: usize) -> bool
    ensures { result ≡ leb (length (T.text text.now)) room }
{
    text.longest() <= room || measured(text) <= room
}

// How long the text is that was put; none where the buffer is too short, which is then left as it is.
pub fn put_whole<T: Text>(text: &T, out: &mut [u8]) -> Option<usize>
    ensures reply { result ≡ written_length (T.text text.now) out.old }
    ensures lent { out.new ≡ written (T.text text.now) out.old }
{
    if !fits(text, out.len()) {
        return None;
    }
    let mut p = Printer { out, at: 0 };
    text.put(&mut p);
    Some(p.at)
}
