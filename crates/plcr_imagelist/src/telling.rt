//! What one token of a list has seen is told to another: by a note, or as the writer meets a pass
//! for good.
ghost use Rattle.std.specs.Prelude.{◌≡◌, []};
ghost use Rattle.plcr_machine.specs.Passes.{IsPaced};
ghost use Rattle.plcr_imagelist.specs.States.{IsAtRest};
ghost use Rattle.plcr_imagelist.specs.Holds.{IsWalking};
ghost use Rattle.plcr_imagelist.specs.Carrying.{OnlySees};
ghost use Rattle.plcr_imagelist.specs.Listing.{HasLists, AddsChanges};
ghost use Rattle.plcr_imagelist.specs.Tellings.{note_of_writer, note_of_walker, IsWriterTold, IsWalkerTold, IsChangeTold, IsHoldTold, IsMet};

use crate::change::Change;
use crate::hold::{Hold, Pass};
use crate::list::ImageList;
use crate::writer::Writer;
use plcr_nodes::NodeNote;
use std::marker::Model;

/// A copy of what a token has seen. One that is dropped tells nobody.
#[derive(Drop)]
pub struct Note {
    pub(crate) note: NodeNote,
}

impl Model for Note {
    ghost use Rattle.plcr_nodes.specs.Tokens.{NoteState};

    ghost Value = { NoteState };

    ghost view = { λ n. n.note };
}

impl Writer {
    /// A note of what the writer has seen.
    pub fn note(&mut self, list: &ImageList) -> Note
        requires { self.old.table ≡ list.now }
        ensures same { self.new ≡ self.old }
        ensures note { result ≡ note_of_writer self.old }
    {
        Note {
            note: self.books.note(&list.nodes),
        }
    }

    /// Takes in what a note's token had seen.
    pub fn told(&mut self, list: &ImageList, note: Note)
        requires list { self.old.table ≡ list.now }
        requires note { note.table ≡ list.now }
        ensures told { IsWriterTold self.old note self.new }
        ensures changes { AddsChanges self.old [] self.new }
        ensures list { self.new.table ≡ self.old.table }
        ensures rest { IsAtRest self.new }
    {
        let Note { note: heard } = note;
        self.books.told(&list.nodes, heard);
    }

    /// Joins a pass, for good: the writer then knows all that the pass did.
    pub fn meet(self, list: &ImageList, pass: Pass) -> Writer
        requires list { self.table ≡ list.now }
        requires pass { pass.table ≡ list.now }
        ensures met { IsMet self pass result }
        ensures changes { AddsChanges self [] result }
        ensures rest { IsAtRest result }
        ensures list { result.table ≡ self.table }
    {
        let Pass {
            pass,
            met: _,
            spots: _,
        } = pass;
        let Writer { mut books, name } = self;
        books.join(&list.nodes, pass);
        Writer { books, name }
    }
}

impl Change {
    /// A note of what the change's writer has seen.
    pub fn note(&mut self, list: &ImageList) -> Note
        requires { self.old.writer.table ≡ list.now }
        ensures same { self.new ≡ self.old }
        ensures note { result ≡ note_of_writer self.old.writer }
    {
        Note {
            note: self.books.note(&list.nodes),
        }
    }

    /// Takes in what a note's token had seen.
    pub fn told(&mut self, list: &ImageList, note: Note)
        requires list { self.old.writer.table ≡ list.now }
        requires note { note.table ≡ list.now }
        ensures told { IsChangeTold self.old note self.new }
        ensures changes { AddsChanges self.old.writer [] self.new.writer }
        ensures lists { HasLists self.new.writer }
        ensures list { self.new.writer.table ≡ self.old.writer.table }
        ensures paced { IsPaced self.new.writer.history }
    {
        let Note { note: seen } = note;
        self.books.told(&list.nodes, seen);
    }
}

impl Pass {
    /// A note of what the pass has seen.
    pub fn note(&mut self, list: &ImageList) -> Note
        requires { self.old.table ≡ list.now }
        ensures same { self.new ≡ self.old }
        ensures note { result ≡ note_of_walker self.old }
    {
        Note {
            note: self.pass.note(&list.nodes),
        }
    }

    /// Takes in what a note's token had seen.
    pub fn told(&mut self, list: &ImageList, note: Note)
        requires list { self.old.table ≡ list.now }
        requires note { note.table ≡ list.now }
        ensures told { IsWalkerTold self.old note self.new }
        ensures sees { OnlySees self.old self.new }
        ensures list { self.new.table ≡ self.old.table }
    {
        let Note { note: seen } = note;
        self.pass.told(&list.nodes, seen);
    }
}

impl Hold {
    /// A note of what the hold's pass has seen.
    pub fn note(&mut self, list: &ImageList) -> Note
        requires { self.old.walker.table ≡ list.now }
        ensures same { self.new ≡ self.old }
        ensures note { result ≡ note_of_walker self.old.walker }
    {
        Note {
            note: self.pass.note(&list.nodes),
        }
    }

    /// Takes in what a note's token had seen. The walk stays as it was.
    pub fn told(&mut self, list: &ImageList, note: Note)
        requires list { self.old.walker.table ≡ list.now }
        requires note { note.table ≡ list.now }
        ensures told { IsHoldTold self.old note self.new }
        ensures sees { OnlySees self.old.walker self.new.walker }
        ensures walking { IsWalking self.new }
        ensures list { self.new.walker.table ≡ self.old.walker.table }
    {
        let Note { note: seen } = note;
        self.pass.told(&list.nodes, seen);
    }
}
