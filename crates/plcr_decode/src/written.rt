//! Texts of several, one after the other.
ghost use Rattle.std.specs.Prelude.{ℕ, List};
ghost use Rattle.plcr_wire.specs.Pen.{Wrote};
ghost use Rattle.plcr_decode.specs.Text.{all_from};

use plcr_wire::Ink;

/// What is written as a text.
pub(crate) trait Written {
    /// Its text, at this place among its like.
    ghost text: { ℕ → Self → List ℕ };

    /// Writes its text.
    fn put<W: Ink>(&self, ink: &mut W, place: u64)
        ensures { Wrote (W.pen ink.old) (W.pen ink.new) (text place self.now) };
}

/// Writes the text of each.
pub(crate) fn put_each<T: Written, W: Ink>(ink: &mut W, items: &[T])
    ensures { Wrote (W.pen ink.old) (W.pen ink.new) (all_from T.text 0 items.now) }
{
    for i in 0..items.len() {
        items[i].put(ink, i as u64);
    }
}
