ghost use Rattle.std.specs.Prelude.{◌≡◌, ◌≤◌, ◌<◌, ◌+◌, ◌^◌, [], ◌++◌, length, take, All, IfOk, OnOk, option_to_list};
ghost use Rattle.plcr_memory.specs.Regions.{IsBacked};
ghost use Rattle.plcr_core.specs.Cores.{fault_of};
ghost use Rattle.plcr_core.specs.inner.Gathering.{Gives, gains, gains_in, with_gain};

use crate::fault::CoreFault;
use crate::gain::{Gain, gain_at};
use crate::header::Header;
use crate::limits::MOST_THREADS;
use plcr_loader::{Trouble, mach_header_64};
use plcr_memory::Region;
use plcr_regs::Registers;
use std::alloc::{AllocError, Global};

/// What the load commands of a core give: its regions, its first threads, and how many threads
/// there are.
#[derive(Drop)]
pub struct Gathered {
    pub regions: Vec<Region>,
    pub threads: Vec<Registers>,
    pub count: u32,
}

impl Gathered {
    fn new(alloc: Global) -> Gathered
        ensures { gains result ≡ record { regions = []; threads = []; count = 0 } }
    {
        Gathered {
            regions: Vec::new(alloc),
            threads: Vec::new(alloc),
            count: 0,
        }
    }

    fn add(&mut self, gain: &Gain) -> Result<(), AllocError>
        requires few { self.old.count + 1 < 2 ^ 32 }
        requires kept { length self.old.threads.items ≤ MOST_THREADS }
        ensures { OnOk result (gains self.new ≡ with_gain (gains self.old) gain.now) }
    {
        add_region(&mut self.regions, gain.region)?;
        add_thread(&mut self.threads, &gain.thread)?;
        self.count += u32::from(gain.thread.is_some());
        Ok(())
    }
}

fn add_region(regions: &mut Vec<Region>, region: Option<Region>) -> Result<(), AllocError>
    ensures { OnOk result (regions.new.items ≡ regions.old.items ++ option_to_list region) }
{
    if let Some(region) = region {
        regions.push(region)?;
    }
    Ok(())
}

// Appends the thread where fewer than the most are kept.
fn add_thread(threads: &mut Vec<Registers>, thread: &Option<Registers>) -> Result<(), AllocError>
    requires { length threads.old.items ≤ MOST_THREADS }
    ensures { OnOk result
        (threads.new.items ≡ take MOST_THREADS (threads.old.items ++ option_to_list thread.now)) }
{
    let Some(thread) = thread else {
        return Ok(());
    };
    if threads.len() >= MOST_THREADS {
        return Ok(());
    }
    threads.push(*thread)?;
    Ok(())
}

fn fault_from(trouble: Trouble, file_length: usize) -> CoreFault
    ensures { result ≡ fault_of file_length trouble }
{
    match trouble {
        Trouble::Bad { index } => CoreFault::BadCommand { index },
        Trouble::Absent { .. } => CoreFault::Truncated { at: file_length },
    }
}

/// All that the load commands of the file give, or the first fault among them.
pub fn gather(alloc: Global, file: &[u8], header: &Header) -> Result<Gathered, CoreFault>
    ensures exact { Gives gains result (gains_in file.now header.now) }
    ensures backed { IfOk result (λ found. All (IsBacked file.now) found.regions.items) }
{
    let mut found = Gathered::new(alloc);
    let mut gain = Gain::none();
    let mut at = mach_header_64::LENGTH as u64;
    for index in 0..header.commands {
        match gain_at(&mut gain, header.arch, file, header.end, index, at) {
            Ok(()) => {}
            Err(trouble) => return Err(fault_from(trouble, file.len())),
        }
        found.add(&gain)?;
        at += gain.size;
    }
    Ok(found)
}
