//! One line of a worker: it waits for the turn, and applies the next load or unload of its script.
ghost use Rattle.std.specs.Prelude.{◌≡◌};
ghost use Rattle.crossbeam_queue.specs.Passes.{view, IsSamePass, IsPassOf, ruled_capacity};
ghost use Rattle.plcr_imagelist.specs.Carrying.{OnlySees};
ghost use Rattle.plcr_imagelist.specs.Holds.{IsWalking};
ghost use Rattle.plcr_turns.specs.Working.{IsWorking, AppliesLine, HasNext};

use crate::lines::Request;
use crate::queue::{TurnPass, TurnQueue, give, take};
use plcr_imagelist::{Hold, ImageList, Note, Pass};
use std::sync::Wait;

/// A line of a script: the numbers of both, the script's from 0 and the line's from 1, and what is
/// asked.
#[derive(Clone, Copy, Debug)]
pub struct ScriptLine<'a> {
    pub script: u32,
    pub line: u32,
    pub request: Request<'a>,
}

/// Waits for the turn, tells its writer what the note's token has seen, applies the line, which is
/// the next of the worker's script, and gives the turn back. The note tells what the writer has
/// seen then.
pub fn apply_line<R: Wait>(
    rt: &R,
    queue: &TurnQueue,
    list: &ImageList,
    pass: &mut TurnPass,
    line: &ScriptLine,
    note: Note,
) -> Note
    requires queue { IsPassOf queue.now pass.old × (ruled_capacity queue.now ≡ 1) }
    requires note { note.table ≡ list.now }
    requires working { IsWorking line.now.script list.now (view pass.old) }
    requires left { HasNext (view pass.old) }
    ensures queue { IsSamePass pass.old pass.new }
    ensures note { result.table ≡ list.now }
    ensures applies { AppliesLine line.now (view pass.old) note.history (view pass.new)
        result.history result.names }
    ensures working { IsWorking line.now.script list.now (view pass.new) }
{
    let mut turn = take(rt, queue, pass);
    turn.tell(list, note);
    let mut turn = turn.apply(list, line.script, line.line, &line.request);
    let known = turn.note(list);
    give(rt, queue, pass, turn);
    known
}

/// Applies the next line of a worker whose image pass is out: both the writer and this pass then
/// know what the other had seen.
pub fn apply_outside<R: Wait>(
    rt: &R,
    queue: &TurnQueue,
    list: &ImageList,
    pass: &mut TurnPass,
    line: &ScriptLine,
    image: &mut Pass,
)
    requires queue { IsPassOf queue.now pass.old × (ruled_capacity queue.now ≡ 1) }
    requires list { image.old.table ≡ list.now }
    requires working { IsWorking line.now.script list.now (view pass.old) }
    requires left { HasNext (view pass.old) }
    ensures queue { IsSamePass pass.old pass.new }
    ensures list { image.new.table ≡ image.old.table }
    ensures applies { AppliesLine line.now (view pass.old) image.old.history (view pass.new)
        image.new.history image.new.names }
    ensures working { IsWorking line.now.script list.now (view pass.new) }
    ensures sees { OnlySees image.old image.new }
{
    let note = image.note(list);
    let known = apply_line(rt, queue, list, pass, line, note);
    image.told(list, known);
}

/// The same of a worker whose image pass is in. Its walk stays as it was.
pub fn apply_inside<R: Wait>(
    rt: &R,
    queue: &TurnQueue,
    list: &ImageList,
    pass: &mut TurnPass,
    line: &ScriptLine,
    hold: &mut Hold,
)
    requires queue { IsPassOf queue.now pass.old × (ruled_capacity queue.now ≡ 1) }
    requires list { hold.old.walker.table ≡ list.now }
    requires working { IsWorking line.now.script list.now (view pass.old) }
    requires left { HasNext (view pass.old) }
    ensures queue { IsSamePass pass.old pass.new }
    ensures list { hold.new.walker.table ≡ hold.old.walker.table }
    ensures applies { AppliesLine line.now (view pass.old) hold.old.walker.history (view pass.new)
        hold.new.walker.history hold.new.walker.names }
    ensures working { IsWorking line.now.script list.now (view pass.new) }
    ensures sees { OnlySees hold.old.walker hold.new.walker }
    ensures walk { (hold.new.met ≡ hold.old.met) × (hold.new.ended ≡ hold.old.ended) }
    ensures walking { IsWalking hold.new }
{
    let note = hold.note(list);
    let known = apply_line(rt, queue, list, pass, line, note);
    hold.told(list, known);
}
