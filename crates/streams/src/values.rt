// What a writer puts, and how much room it takes at most.
ghost use Rattle.std.specs.Prelude.{◌+◌, ◌*◌, length};
ghost use Rattle.lines.specs.Lines.{refusal_line};
ghost use Rattle.lines.specs.Writers.{Writes};
ghost use Rattle.refusals.specs.Reasons.{number_of};
ghost use Rattle.streams.specs.Growth.{RoomFor, Grows};
ghost use Rattle.streams.specs.Values.{PutsValues};

use lines::Writer;
use refusals::Refusal;

// A title, and each number behind a space. A number has at most 20 digits.
#[tactic(auto, using(crate::proofs::Growing::growing))]
pub fn put_values<T: Copy + Into<usize>>(out: &mut Writer, title: &[u8], values: &[T])
    requires { RoomFor out.old (length title.now + 21 * length values.now) }
    ensures line { PutsValues T.converts title.now values.now out.old out.new }
    ensures grows { Grows out.old (length title.now + 21 * length values.now) out.new }
{
    out.put(title);
    for value in values {
        out.put_number((*value).into());
    }
}

// The line of a refusal.
#[tactic(auto, using(crate::proofs::Growing::growing))]
pub fn put_refused(out: &mut Writer, refusal: Refusal)
    requires { RoomFor out.old 50 }
    ensures line { Writes out.old (refusal_line (number_of refusal.reason) refusal.place) out.new }
    ensures grows { Grows out.old 50 out.new }
{
    out.put_refusal(refusal);
}
