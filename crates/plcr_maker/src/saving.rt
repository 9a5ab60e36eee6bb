//! The files that are made are kept.
ghost use Rattle.std.specs.Prelude.{◌≡◌, [], ◌∷◌, OnOk, OnErr};
ghost use Rattle.plcr_command.specs.Seen.{seen};
ghost use Rattle.plcr_command.specs.Endings.{HasKept, CannotWrite};
ghost use Rattle.plcr_command.specs.Endings.{GoesOn};
ghost use Rattle.plcr_maker.specs.Make.{CannotKeepOne};
ghost use Rattle.plcr_maker.specs.inner.Making.{files_of};

use crate::making::Made;
use plcr_command::{Unsaved, print_unwritten, save_bytes};
use plcr_io::{Desk, Sink};
use plcr_make::MADE_REPORT;

/// Keeps the three files, in their order.
///
/// # Errors
///
/// `Unsaved` at the first that isn't kept, which is printed.
pub(crate) fn save_all<D: Desk, L: Sink>(
    made: &Made,
    core: &str,
    script: &str,
    desk: &mut D,
    lines: &mut L,
) -> Result<(), Unsaved>
    ensures kept { OnOk result (HasKept (files_of core.now script.now made.now) []
        (seen (D.told desk.old) (L.written lines.old) (L.faults lines.old))
        (seen (D.told desk.new) (L.written lines.new) (L.faults lines.new))) }
    ensures stopped { OnErr result (CannotKeepOne (files_of core.now script.now made.now)
        (seen (D.told desk.old) (L.written lines.old) (L.faults lines.old))
        (seen (D.told desk.new) (L.written lines.new) (L.faults lines.new))) }
    ensures goes_on { GoesOn
        (seen (D.told desk.old) (L.written lines.old) (L.faults lines.old))
        (seen (D.told desk.new) (L.written lines.new) (L.faults lines.new)) }
    ensures mark { L.mark lines.new ≡ L.mark lines.old }
{
    match save(core, &made.core, desk, lines) {
        Err(Unsaved) => return Err(Unsaved),
        Ok(()) => {}
    }
    match save(script, &made.script, desk, lines) {
        Err(Unsaved) => return Err(Unsaved),
        Ok(()) => {}
    }
    match save(MADE_REPORT, &made.report, desk, lines) {
        Err(Unsaved) => Err(Unsaved),
        Ok(()) => Ok(()),
    }
}

/// Keeps a file, or prints that it wasn't kept.
fn save<D: Desk, L: Sink>(
    name: &str,
    bytes: &[u8],
    desk: &mut D,
    lines: &mut L,
) -> Result<(), Unsaved>
    ensures kept { OnOk result (HasKept ((name.now, bytes.now) ∷ []) []
        (seen (D.told desk.old) (L.written lines.old) (L.faults lines.old))
        (seen (D.told desk.new) (L.written lines.new) (L.faults lines.new))) }
    ensures stopped { OnErr result (CannotWrite [] [] name.now bytes.now
        (seen (D.told desk.old) (L.written lines.old) (L.faults lines.old))
        (seen (D.told desk.new) (L.written lines.new) (L.faults lines.new))) }
    ensures goes_on { GoesOn
        (seen (D.told desk.old) (L.written lines.old) (L.faults lines.old))
        (seen (D.told desk.new) (L.written lines.new) (L.faults lines.new)) }
    ensures mark { L.mark lines.new ≡ L.mark lines.old }
{
    match save_bytes(name, bytes, desk) {
        Ok(()) => Ok(()),
        Err(Unsaved) => {
            print_unwritten(lines, name.as_bytes());
            Err(Unsaved)
        }
    }
}
