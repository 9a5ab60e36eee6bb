//! The walk of one hold.
ghost use Rattle.std.specs.Prelude.{◌≡◌, true};
ghost use Rattle.plcr_imagelist.specs.Holds.{IsWalking};
ghost use Rattle.plcr_imagelist.specs.Carrying.{OnlySees};
ghost use Rattle.plcr_run.specs.Walks.{IsFurther, IsToEnd};

use plcr_imagelist::{Hold, ImageList};

/// At most so many images more, up to the end of the walk.
pub fn walk(hold: &mut Hold, list: &ImageList, most: u32)
    requires list { hold.old.walker.table ≡ list.now }
    requires walking { IsWalking hold.old }
    ensures further { IsFurther hold.old most hold.new }
    ensures sees { OnlySees hold.old.walker hold.new.walker }
    ensures walking { IsWalking hold.new }
    ensures list { hold.new.walker.table ≡ list.now }
{
    for turn in 0..most {
        if !hold.next(list) {
            return;
        }
    }
}

/// All images that are left.
pub fn walk_to_end(hold: &mut Hold, list: &ImageList)
    requires list { hold.old.walker.table ≡ list.now }
    requires walking { IsWalking hold.old }
    ensures to_end { IsToEnd hold.old hold.new }
    ensures ended { hold.new.ended ≡ true }
    ensures sees { OnlySees hold.old.walker hold.new.walker }
    ensures walking { IsWalking hold.new }
    ensures list { hold.new.walker.table ≡ list.now }
{
    while hold.next(list) {}
}
