//! The turn: who has it has the writer, the journal, and how far each script has come.
ghost use Rattle.std.specs.Prelude.{◌≡◌, ℕ, [], length, sum, IfOk, IfSome};
ghost use Rattle.plcr_imagelist.specs.Tellings.{note_of_writer};
ghost use Rattle.plcr_turns.specs.Turns.{IsTurn, IsTold, HasApplied, HasLeft, HasAnswered, HasCome, is_new, opened_turn};

use crate::lines::{Asked, ChangeLine, Request, Said, Wanted};
use plcr_imagelist::{ImageList, LoadRefused, Note, UnloadRefused, Writer};
use std::alloc::{AllocError, Global};
use std::marker::Model;

/// How far a script has come: how many of its loads and unloads were applied, of how many.
#[derive(Clone, Copy, Debug, PartialEq, Eq)]
pub struct Part {
    pub applied: u32,
    pub total: u32,
}

/// The writer with the journal and the progress of each script. It lies in the queue or with one
/// worker. Contracts see what the writer knows, the lines of the journal in the order in which they
/// were applied, and the parts in the order of their scripts.
#[derive(Drop)]
pub struct Turn {
    writer: Writer,
    journal: Vec<ChangeLine>,
    parts: Vec<Part>,
}

impl Model for Turn {
    ghost use Rattle.std.specs.Prelude.{◌≤◌, ◌+◌, vec_len, vec_capacity};
    ghost use Rattle.plcr_turns.specs.Turns.{TurnState, turn_state, IsTurn, room_wanted};

    ghost Value = { TurnState };

    ghost view = { λ t. turn_state t.writer t.journal.items t.parts.items };

    ghost invariant = { λ t. IsTurn (turn_state t.writer t.journal.items t.parts.items)
        × (vec_len t.journal + room_wanted t.parts.items ≤ vec_capacity t.journal) };
}

// So many lines in all.
fn sum_of(totals: &[u32]) -> Option<usize>
    ensures { IfSome result (λ n. n ≡ sum totals.now) }
{
    let mut sum = 0usize;
    for total in totals {
        sum = sum.checked_add(*total as usize)?;
    }
    Some(sum)
}

impl Turn {
    /// The turn of a list that was just opened, for scripts that have so many loads and unloads
    /// each. The room for the whole journal is taken here.
    pub fn open(alloc: Global, writer: Writer, totals: &[u32]) -> Result<Turn, AllocError>
        requires { is_new writer }
        ensures turn { IfOk result (λ turn. turn ≡ opened_turn writer totals.now) }
    {
        let Some(room) = sum_of(totals) else {
            return Err(AllocError);
        };
        let journal = Vec::with_capacity(alloc, room)?;
        let mut parts = Vec::with_capacity(alloc, totals.len())?;
        for total in totals {
            parts.push_reserved(Part {
                applied: 0,
                total: *total,
            });
        }
        Ok(Turn {
            writer,
            journal,
            parts,
        })
    }

    /// How many scripts there are.
    pub fn count(&self) -> usize
        ensures { result ≡ length self.now.parts }
    {
        self.parts.len()
    }

    /// Tells the writer what a note's token had seen.
    pub fn tell(&mut self, list: &ImageList, note: Note)
        requires list { self.old.writer.table ≡ list.now }
        requires note { note.table ≡ list.now }
        ensures told { IsTold self.old note self.new }
        ensures turn { IsTurn self.new }
    {
        self.writer.told(list, note);
    }

    /// A note of what the writer has seen.
    pub fn note(&mut self, list: &ImageList) -> Note
        requires { self.old.writer.table ≡ list.now }
        ensures same { self.new ≡ self.old }
        ensures note { result ≡ note_of_writer self.old.writer }
        ensures turn { IsTurn self.new }
    {
        self.writer.note(list)
    }

    /// Applies the next line of a script that has one left, and writes it into the journal. Takes
    /// no memory.
    pub fn apply(self, list: &ImageList, script: u32, line: u32, request: &Request) -> Turn
        requires list { self.writer.table ≡ list.now }
        requires left { HasLeft self.parts script }
        ensures applied { HasApplied self script line request.now result }
        ensures turn { IsTurn result }
    {
        let Turn {
            writer,
            mut journal,
            mut parts,
        } = self;
        let (writer, said) = answer(writer, list, request);
        let asked = request.asked();
        journal.push_reserved(ChangeLine {
            script,
            wanted: Wanted { line, asked },
            said,
        });
        let part = &mut parts[script as usize];
        part.applied += 1;
        Turn {
            writer,
            journal,
            parts,
        }
    }

    /// Takes the turn apart, once no worker is left.
    pub fn end(self) -> (Writer, Vec<ChangeLine>)
        ensures writer { result.0 ≡ self.writer }
        ensures journal { result.1.items ≡ self.journal }
        ensures turn { IsTurn self }
    {
        let Turn {
            writer,
            journal,
            parts: _,
        } = self;
        (writer, journal)
    }
}

// What the writer does about a request, and what it comes to.
fn answer(writer: Writer, list: &ImageList, request: &Request) -> (Writer, Said)
    requires { writer.table ≡ list.now }
    ensures { HasAnswered request.now writer result.1 result.0 }
{
    match *request {
        Request::Load {
            fault: Some(kind),
            ..
        } => (writer, Said::NotImage { kind }),
        Request::Load {
            header,
            name,
            fault: None,
        } => load(writer, list, header, name),
        Request::Unload { header } => unload(writer, list, header),
    }
}

fn load(writer: Writer, list: &ImageList, header: u64, name: &[u8]) -> (Writer, Said)
    requires { writer.table ≡ list.now }
    ensures came { HasCome (Asked.Load header) name.now writer result.1 result.0 }
    ensures image { (kind : ℕ) → ¬ (result.1 ≡ Said.NotImage kind) }
{
    let (writer, loaded) = writer.load(list, header, name);
    let said = match loaded {
        Ok(load) => Said::Loaded { load },
        Err(LoadRefused::Full { live, held, seen }) => Said::Full { live, held, seen },
        Err(LoadRefused::NameTooLong { len }) => Said::Long { len },
        Err(LoadRefused::Worn { changes }) => Said::Worn { changes },
    };
    (writer, said)
}

fn unload(writer: Writer, list: &ImageList, header: u64) -> (Writer, Said)
    requires { writer.table ≡ list.now }
    ensures { HasCome (Asked.Unload header) [] writer result.1 result.0 }
{
    let (writer, unloaded) = writer.unload(list, header);
    let said = match unloaded {
        Ok(load) => Said::Unloaded { load },
        Err(UnloadRefused::NotLoaded) => Said::NotLoaded,
        Err(UnloadRefused::Worn { changes }) => Said::Worn { changes },
    };
    (writer, said)
}
