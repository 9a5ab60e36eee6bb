ghost use Rattle.std.specs.Prelude.{◌≡◌, ◌≢◌, ℕ, List, Some, Ok, Err};
ghost use Rattle.plcr_core.specs.declared.fault.CoreFault.{CoreFault};
ghost use Rattle.plcr_core.specs.declared.fault.CoreFault.TheVariants as faults;
ghost use Rattle.plcr_core.specs.declared.read.Core.{Core};
ghost use Rattle.plcr_core.specs.Cores.{parts_in};
ghost use Rattle.plcr_core.specs.Groups.{AreGroups, Group, groups_in};
ghost use Rattle.plcr_core.specs.Laws.{IsFirstFault, IsLaidOut};
ghost use Rattle.plcr_core.specs.Reading.{IsAnswer};

/// What a core is: its header, then the load commands that lie one after the other behind it, and
/// what these give.
pub fn cores_lie()
    // A core that is answered lies so.
    ensures found { (file : List ℕ) (core : Core) → IsAnswer file (parts_in file) (Ok core) →
        IsLaidOut file core }

    // A core that lies so is answered.
    ensures only { (file : List ℕ) (core : Core) → IsLaidOut file core →
        IsAnswer file (parts_in file) (Ok core) }

    // Any other answer but want of memory is the first fault there.
    ensures first { (file : List ℕ) (fault : CoreFault) → fault ≢ faults.Memory →
        IsAnswer file (parts_in file) (Err fault) → IsFirstFault file fault }
{}

/// The groups that are found in a thread command are the ones that stand in it, one after the
/// other, and no others.
pub fn groups_lie()
    ensures found { (bytes : List ℕ) (groups : List Group) → groups_in bytes ≡ Some groups →
        AreGroups bytes groups }
    ensures only { (bytes : List ℕ) (groups : List Group) → AreGroups bytes groups →
        groups_in bytes ≡ Some groups }
{}
