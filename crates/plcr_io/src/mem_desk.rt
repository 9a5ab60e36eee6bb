//! A desk in memory, whose files, outputs and failures are given.
ghost use Rattle.std.specs.Prelude.{◌≡◌, ℕ, ◌+◌, ◌≤◌, [], vec_len, vec_capacity, All, IfOk, Some, option_copied, slice_get};
ghost use Rattle.plcr_io.specs.Output.{IsFresh};

use crate::calls::{Name, admit};
use crate::counting::one_more;
use crate::mem_files::{Kept, find_file, find_kept};
use crate::{Desk, MakeFailed, MemFile, MemOut, NoMemory, TakeFault};
use std::alloc::Global;

/// A desk in memory. Takes, makes and keeps are numbered together from 1.
#[derive(Drop)]
pub struct MemDesk {
    files: Vec<MemFile>,
    // The last is the next.
    outs: Vec<MemOut>,
    failing: Vec<u32>,
    calls: u64,
    taken: Vec<Name>,
    made: Vec<Name>,
    kept: Vec<Kept>,
    dropped: Vec<MemOut>,
    take_faults: u64,
    out_faults: u64,
    ghost fresh: { All IsFresh outs.items },
    ghost room_made: { vec_len made + vec_len outs ≤ vec_capacity made },
    ghost room_kept: { vec_len made + vec_len outs ≤ vec_capacity kept },
    ghost room_dropped: { vec_len made + vec_len outs ≤ vec_capacity dropped },
    ghost balanced: { vec_len kept + vec_len dropped ≤ vec_len made },
}

impl MemDesk {
    ghost use Rattle.plcr_io.specs.MemDesk.{contents, file_now};

    /// A desk with these files, which hands out these outputs in order. Of several files with one
    /// name the first counts. The takes, makes and keeps whose numbers stand in `failing` fail.
    pub fn new(
        alloc: Global,
        files: Vec<MemFile>,
        outs: Vec<MemOut>,
        failing: Vec<u32>,
    ) -> Result<MemDesk, NoMemory>
        requires { All IsFresh outs.items }
        ensures { IfOk result (λ desk. contents desk ≡ record {
          files = files.items;
          outs =
              outs.items;
          failing = failing.items;
          calls = 0;
          taken = [];
          made = [];
          kept =
              [];
          dropped = [];
          take_faults = 0;
          out_faults = 0;
        }) }
    {
        let count = outs.len();
        let made = Vec::with_capacity(alloc, count)?;
        let kept = Vec::with_capacity(alloc, count)?;
        let dropped = Vec::with_capacity(alloc, count)?;
        let mut outs = outs;
        outs.reverse();
        Ok(MemDesk {
            files,
            outs,
            failing,
            calls: 0,
            taken: Vec::new(alloc),
            made,
            kept,
            dropped,
            take_faults: 0,
            out_faults: 0,
        })
    }

    /// What is behind a name now: the bytes that were kept last under it, or else the file's.
    pub fn file(&self, name: &str) -> Option<&[u8]>
        ensures { option_copied result ≡ file_now (contents self.now) name.now }
    {
        match find_kept(&self.kept, name) {
            Some(bytes) => Some(bytes),
            None => find_file(&self.files, name),
        }
    }

    /// What the output had written that was given up as the `i`-th, from 0.
    pub fn dropped(&self, i: usize) -> Option<&[u8]>
        ensures { option_copied result ≡ slice_get (contents self.now).dropped i }
    {
        match self.dropped.get(i) {
            Some(out) => Some(out.bytes()),
            None => None,
        }
    }
}

impl Desk for MemDesk {
    ghost use Rattle.plcr_io.specs.Desk.{Takes, Makes, Keeps, Abandons, HasOpen};
    ghost use Rattle.plcr_io.specs.MemDesk.{contents, tells, TakesFile, MakesOutput, KeepsOutput, AbandonsOutput};
    ghost use Rattle.plcr_io.specs.inner.Balance.{balanced};

    type Out = MemOut;

    ghost told = { λ desk. tells (contents desk) };

    ghost balances = { balanced };

    fn take(&mut self, alloc: Global, name: &str, limit: u64) -> Result<Vec<u8>, TakeFault>
        ensures exact { TakesFile name.now limit (contents self.old) (contents self.new) result }
        ensures told { Takes name.now limit (tells (contents self.old)) (tells (contents self.new))
            result }
    {
        let entry = admit(&mut self.calls, &self.failing, name);
        let file = find_file(&self.files, name);
        let (Some(entry), Some(bytes)) = (entry, file) else {
            self.take_faults = one_more(self.take_faults);
            return Err(TakeFault::Failed);
        };
        if bytes.len() as u64 > limit {
            return Err(TakeFault::TooLong { limit });
        }
        let whole = bytes.to_vec(alloc)?;
        self.taken.push(entry)?;
        Ok(whole)
    }

    fn make(&mut self, name: &str) -> Result<MemOut, MakeFailed>
        ensures exact { MakesOutput name.now (contents self.old) (contents self.new) result }
        ensures told { Makes (λ out. Some out.bytes) (λ out. out.faults) name.now
            (tells (contents self.old)) (tells (contents self.new)) result }
    {
        if let Some(entry) = admit(&mut self.calls, &self.failing, name) {
            if let Some(out) = self.outs.pop() {
                self.made.push_reserved(entry);
                return Ok(out);
            }
        }
        self.out_faults = one_more(self.out_faults);
        Err(MakeFailed)
    }

    fn keep(&mut self, name: &str, out: MemOut) -> Result<(), MakeFailed>
        requires { HasOpen (tells (contents self.old)) }
        ensures exact { KeepsOutput name.now out.bytes (contents self.old) (contents self.new)
            result }
        ensures told { Keeps name.now (Some out.bytes) (tells (contents self.old))
            (tells (contents self.new)) result }
    {
        let Some(name) = admit(&mut self.calls, &self.failing, name) else {
            self.out_faults = one_more(self.out_faults);
            return Err(MakeFailed);
        };
        self.kept.push_reserved(Kept { name, out });
        Ok(())
    }

    fn abandon(&mut self, out: MemOut)
        requires { HasOpen (tells (contents self.old)) }
        ensures exact { AbandonsOutput out.bytes out.faults (contents self.old)
            (contents self.new) }
        ensures told { Abandons (Some out.bytes) out.faults (tells (contents self.old))
            (tells (contents self.new)) }
    {
        if out.faults() > 0 {
            self.out_faults = one_more(self.out_faults);
        }
        self.dropped.push_reserved(out);
    }
}
