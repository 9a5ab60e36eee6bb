//! The statements of the writer.
ghost use Rattle.std.specs.Prelude.{◌≡◌, ◌<◌, ℕ, List};
ghost use Rattle.plcr_macho.specs.Images.{Listed};
ghost use Rattle.plcr_imagelist.specs.States.{IsAtRest, steps_of};
ghost use Rattle.plcr_imagelist.specs.Steps.{table_of};
ghost use Rattle.plcr_imagelist.specs.Listing.{HasLists, writer_of as left_of};
ghost use Rattle.plcr_script.specs.Meanings.{meanings};
ghost use Rattle.plcr_script.specs.RunTurns.{load_turn, unload_turn, made_whole, left_open, where_open, step_turn, stepped_through};
ghost use Rattle.plcr_run.specs.inner.Tokens.{writer_of};
ghost use Rattle.plcr_run.specs.inner.Changes.{IsSteppedOn, IsSteppedThrough, WriterTurns, said_by_load, said_by_unload, refused_load, refused_unload, said_when_made};

use crate::writing::Writing;
use plcr_imagelist::{Change, ImageList, LoadRefused, Progress, UnloadRefused, Writer};
use plcr_script::{Outcome, Process};

/// Loads an image, unless that is refused: all steps of it.
#[inline(always)]
pub(crate) fn load<P: Process>(
    process: &P,
    list: &ImageList,
    writing: Writing,
    header: u64,
    name: &[u8],
) -> (Writing, Outcome<'static>)
    requires list { (writer_of writing).table ≡ list.now }
    ensures turns { (report : List Listed → List ℕ) →
        WriterTurns list.now writing (λ nodes passes.
        load_turn (meanings (P.image_fault process.now) report) nodes passes made_whole header
        name.now) result.0 result.1 }
    ensures list { (writer_of result.0).table ≡ list.now }
{
    match writing {
        Writing::Changing(change) => (Writing::Changing(change), Outcome::Busy),
        Writing::Resting(writer) => match process.fault(header) {
            Some(kind) => (Writing::Resting(writer), Outcome::NotImage { kind }),
            None => {
                let (writer, answer) = writer.load(list, header, name);
                (Writing::Resting(writer), load_outcome(answer))
            }
        },
    }
}

/// Unloads the first image with the header, unless that is refused: all steps of it.
#[inline(always)]
pub(crate) fn unload(list: &ImageList, writing: Writing, header: u64) -> (Writing, Outcome<'static>)
    requires list { (writer_of writing).table ≡ list.now }
    ensures turns { WriterTurns list.now writing (λ nodes passes. unload_turn made_whole header)
        result.0 result.1 }
    ensures list { (writer_of result.0).table ≡ list.now }
{
    match writing {
        Writing::Changing(change) => (Writing::Changing(change), Outcome::Busy),
        Writing::Resting(writer) => {
            let (writer, answer) = writer.unload(list, header);
            (Writing::Resting(writer), unload_outcome(answer))
        }
    }
}

/// Begins a load, unless that is refused.
#[inline(always)]
pub(crate) fn begin_load<P: Process>(
    process: &P,
    list: &ImageList,
    writing: Writing,
    header: u64,
    name: &[u8],
) -> (Writing, Outcome<'static>)
    requires list { (writer_of writing).table ≡ list.now }
    ensures turns { (report : List Listed → List ℕ) →
        WriterTurns list.now writing (λ nodes passes.
        load_turn (meanings (P.image_fault process.now) report) nodes passes left_open header
        name.now) result.0 result.1 }
    ensures list { (writer_of result.0).table ≡ list.now }
{
    match writing {
        Writing::Changing(change) => (Writing::Changing(change), Outcome::Busy),
        Writing::Resting(writer) => match process.fault(header) {
            Some(kind) => (Writing::Resting(writer), Outcome::NotImage { kind }),
            None => match writer.begin_load(list, header, name) {
                Ok(change) => begun(change),
                Err((writer, refused)) => (Writing::Resting(writer), load_refused(refused)),
            },
        },
    }
}

/// Begins an unload, unless that is refused.
#[inline(always)]
pub(crate) fn begin_unload(
    list: &ImageList,
    writing: Writing,
    header: u64,
) -> (Writing, Outcome<'static>)
    requires list { (writer_of writing).table ≡ list.now }
    ensures turns { WriterTurns list.now writing (λ nodes passes. unload_turn left_open header)
        result.0 result.1 }
    ensures list { (writer_of result.0).table ≡ list.now }
{
    match writing {
        Writing::Changing(change) => (Writing::Changing(change), Outcome::Busy),
        Writing::Resting(writer) => match writer.begin_unload(list, header) {
            Ok(change) => begun(change),
            Err((writer, refused)) => (Writing::Resting(writer), unload_refused(refused)),
        },
    }
}

/// At most so many steps of the open change.
#[inline(always)]
pub(crate) fn step(list: &ImageList, writing: Writing, most: u32) -> (Writing, Outcome<'static>)
    requires list { (writer_of writing).table ≡ list.now }
    ensures turns { WriterTurns list.now writing (λ nodes passes. where_open (step_turn most))
        result.0 result.1 }
    ensures list { (writer_of result.0).table ≡ list.now }
{
    match writing {
        Writing::Resting(writer) => (Writing::Resting(writer), Outcome::Idle),
        Writing::Changing(change) => {
            let load = change.load();
            let loads = change.is_load();
            match step_on(list, change, most) {
                Progress::More(change) => {
                    let made = change.made();
                    (Writing::Changing(change), Outcome::Stepped { made })
                }
                Progress::Done(writer) => (Writing::Resting(writer), made_outcome(loads, load)),
            }
        }
    }
}

/// The rest of the open change's steps.
#[inline(always)]
pub(crate) fn end(list: &ImageList, writing: Writing) -> (Writing, Outcome<'static>)
    requires list { (writer_of writing).table ≡ list.now }
    ensures turns { WriterTurns list.now writing (λ nodes passes. where_open stepped_through)
        result.0 result.1 }
    ensures list { (writer_of result.0).table ≡ list.now }
{
    match writing {
        Writing::Resting(writer) => (Writing::Resting(writer), Outcome::Idle),
        Writing::Changing(change) => {
            let load = change.load();
            let loads = change.is_load();
            let writer = finish(list, change);
            (Writing::Resting(writer), made_outcome(loads, load))
        }
    }
}

/// At most so many steps.
#[inline(always)]
fn step_on(list: &ImageList, change: Change, most: u32) -> Progress
    requires list { change.writer.table ≡ list.now }
    ensures stepped { IsSteppedOn change most result }
    ensures list { table_of result ≡ list.now }
    ensures lists { HasLists change.writer → HasLists (left_of result) }
{
    let mut change = change;
    for turn in 0..most {
        match change.step(list) {
            Progress::More(next) => change = next,
            Progress::Done(writer) => return Progress::Done(writer),
        }
    }
    Progress::More(change)
}

/// All steps that are left.
#[inline(always)]
pub(crate) fn finish(list: &ImageList, change: Change) -> Writer
    requires list { change.writer.table ≡ list.now }
    ensures stepped { IsSteppedThrough change result }
    ensures list { result.table ≡ list.now }
    ensures rest { IsAtRest result }
{
    let mut change = change;
    loop {
        match change.step(list) {
            Progress::More(next) => change = next,
            Progress::Done(writer) => return writer,
        }
    }
}

/// A change that was begun.
#[inline(always)]
fn begun(change: Change) -> (Writing, Outcome<'static>)
    ensures change { result.0 ≡ Writing.Changing change }
    ensures outcome { result.1 ≡ Outcome.Begun (steps_of change.doing) }
{
    let steps = change.steps();
    (Writing::Changing(change), Outcome::Begun { steps })
}

/// What a change that was made comes to.
fn made_outcome(loads: bool, load: u32) -> Outcome<'static>
    ensures { result ≡ said_when_made loads load }
{
    if loads {
        Outcome::Loaded { load }
    } else {
        Outcome::Unloaded { load }
    }
}

/// What a whole load comes to.
fn load_outcome(answer: Result<u32, LoadRefused>) -> Outcome<'static>
    ensures { result ≡ said_by_load answer }
{
    match answer {
        Ok(load) => Outcome::Loaded { load },
        Err(refused) => load_refused(refused),
    }
}

/// What a load that was refused comes to.
fn load_refused(refused: LoadRefused) -> Outcome<'static>
    ensures { result ≡ refused_load refused }
{
    match refused {
        LoadRefused::Full { live, held, seen } => Outcome::Full { live, held, seen },
        LoadRefused::NameTooLong { len } => Outcome::Long { len },
        LoadRefused::Worn { changes } => Outcome::Worn { changes },
    }
}

/// What a whole unload comes to.
fn unload_outcome(answer: Result<u32, UnloadRefused>) -> Outcome<'static>
    ensures { result ≡ said_by_unload answer }
{
    match answer {
        Ok(load) => Outcome::Unloaded { load },
        Err(refused) => unload_refused(refused),
    }
}

/// What an unload that was refused comes to.
fn unload_refused(refused: UnloadRefused) -> Outcome<'static>
    ensures { result ≡ refused_unload refused }
{
    match refused {
        UnloadRefused::NotLoaded => Outcome::NotLoaded,
        UnloadRefused::Worn { changes } => Outcome::Worn { changes },
    }
}
