ghost use Rattle.std.specs.Prelude.{◌≡◌, ◌≤◌, All, IfOk};
ghost use Rattle.plcr_base.specs.Chains.{result_map};
ghost use Rattle.plcr_memory.specs.Regions.{IsBacked};
ghost use Rattle.plcr_core.specs.Cores.{AreThreads, parts_in};
ghost use Rattle.plcr_core.specs.Reading.{IsAnswer};
ghost use Rattle.plcr_core.specs.inner.Gathering.{Gives, gains, parts, parts_from};

use crate::fault::CoreFault;
use crate::gathered::{Gathered, gather};
use crate::header::header_of;
use crate::limits::MOST_THREADS;
use plcr_base::Rows;
use plcr_memory::{Memory, MemoryFault, Region};
use plcr_regs::{Arch, Registers};
use std::alloc::Global;

/// A core file: its memory, and the state of each thread that has one, in order.
#[derive(Drop)]
pub struct Core {
    pub arch: Arch,
    pub memory: Memory,
    pub threads: Rows<Registers>,
}

// What a core has before its memory is laid out.
#[derive(Drop)]
struct Found {
    arch: Arch,
    regions: Vec<Region>,
    threads: Vec<Registers>,
}

fn counted(arch: Arch, gathered: Gathered) -> Result<Found, CoreFault>
    ensures exact { result_map parts result ≡ parts_from arch (gains gathered) }
    ensures regions { IfOk result (λ found. found.regions.items ≡ gathered.regions.items) }
{
    let Gathered {
        regions,
        threads,
        count,
    } = gathered;
    if count == 0 {
        return Err(CoreFault::NoThread);
    }
    if count as usize > MOST_THREADS {
        return Err(CoreFault::TooManyThreads { count });
    }
    Ok(Found {
        arch,
        regions,
        threads,
    })
}

fn found_in(alloc: Global, file: &[u8]) -> Result<Found, CoreFault>
    ensures exact { Gives parts result (parts_in file.now) }
    ensures backed { IfOk result (λ found. All (IsBacked file.now) found.regions.items) }
{
    let header = header_of(file)?;
    let gathered = gather(alloc, file, &header)?;
    counted(header.arch, gathered)
}

/// The core that the bytes of a 64-bit little-endian Mach-O core file hold, or the first fault in
/// it, in the order of [`CoreFault`]'s tests: the header, then each load command, then the threads,
/// then the regions.
pub fn read_core(alloc: Global, bytes: Vec<u8>) -> Result<Core, CoreFault>
    ensures exact { IsAnswer bytes.items (parts_in bytes.items) result }
    ensures threads { IfOk result (λ core. AreThreads core.arch core.threads) }
{
    let Found {
        arch,
        regions,
        threads,
    } = found_in(alloc, &bytes)?;
    match Memory::new(alloc, bytes, regions) {
        Ok(memory) => Ok(Core {
            arch,
            memory,
            threads: Rows::new(threads),
        }),
        Err(MemoryFault::Overlap { first, second }) => Err(CoreFault::Overlap { first, second }),
        Err(MemoryFault::Wraps { index }) => Err(CoreFault::Wraps { index }),
        Err(MemoryFault::Memory) => Err(CoreFault::Memory),
    }
}
