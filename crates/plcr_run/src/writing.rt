//! The writer of a run, at rest or in a change that is open.
ghost use Rattle.std.specs.Prelude.{◌≡◌};
ghost use Rattle.plcr_imagelist.specs.Tellings.{note_of_writer, IsWriterTold};
ghost use Rattle.plcr_run.specs.inner.Tokens.{writer_of, with_writer, IsGoing};

use plcr_imagelist::{Change, ImageList, Note, Writer};

/// The writer of a run.
#[derive(Drop)]
pub enum Writing {
    /// No change is open.
    Resting(Writer),
    /// This change is open.
    Changing(Change),
}

impl Writing {
    /// A note of what the writer has seen.
    pub(crate) fn note(&mut self, list: &ImageList) -> Note
        requires { (writer_of self.old).table ≡ list.now }
        ensures same { self.new ≡ self.old }
        ensures note { result ≡ note_of_writer (writer_of self.old) }
    {
        match self {
            Writing::Resting(writer) => writer.note(list),
            Writing::Changing(change) => change.note(list),
        }
    }

    /// Takes in what a note's token had seen.
    pub(crate) fn told(&mut self, list: &ImageList, note: Note)
        requires list { (writer_of self.old).table ≡ list.now }
        requires note { note.table ≡ list.now }
        requires going { IsGoing self.old }
        ensures told { IsWriterTold (writer_of self.old) note (writer_of self.new) }
        ensures same { self.new ≡ with_writer self.old (writer_of self.new) }
        ensures going { IsGoing self.new }
    {
        match self {
            Writing::Resting(writer) => writer.told(list, note),
            Writing::Changing(change) => change.told(list, note),
        }
    }
}
