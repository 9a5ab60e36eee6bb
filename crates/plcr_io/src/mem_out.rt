//! An output in memory, whose room, steps and failures are given.
ghost use Rattle.std.specs.Prelude.{◌≡◌, ℕ, ◌<◌, ◌≤◌, List, [], ◌∷◌, length, Some, IfOk};
ghost use Rattle.plcr_io.specs.Output.{Puts};

use crate::calls::is_listed;
use crate::counting::one_more;
use crate::{NoMemory, PutFailed, Sink};
use std::alloc::Global;
use std::marker::Model;

/// A sink in memory.
#[derive(Drop)]
pub struct MemOut {
    bytes: Vec<u8>,
    room: usize,
    most: usize,
    failing: Vec<u32>,
    puts: u64,
    faults: u64,
}

impl Model for MemOut {
    ghost use Rattle.std.specs.Prelude.{◌<◌, ◌≤◌, vec_len, vec_capacity};
    ghost use Rattle.plcr_io.specs.Output.{Output};

    ghost Value = { Output };

    ghost view = { λ out. record {
      bytes = out.bytes.items;
      room = out.room;
      most =
          out.most;
      failing = out.failing.items;
      puts = out.puts;
      faults = out.faults;
    } };

    ghost invariant = { λ out. (out.room ≤ vec_capacity out.bytes) × (vec_len out.bytes ≤ out.room)
        × (0 < out.most) };
}

impl MemOut {
    /// An output that takes at most `room` bytes in all and `most` in one put. The puts whose
    /// numbers, from 1, stand in `failing` fail, and so does each put when the room is full.
    pub fn new(
        alloc: Global,
        room: usize,
        most: usize,
        failing: Vec<u32>,
    ) -> Result<MemOut, NoMemory>
        requires { 1 ≤ most }
        ensures { IfOk result (λ out. out ≡ record {
          bytes = [];
          room = room;
          most = most;
          failing =
              failing.items;
          puts = 0;
          faults = 0;
        }) }
    {
        Ok(MemOut {
            bytes: Vec::with_capacity(alloc, room)?,
            room,
            most,
            failing,
            puts: 0,
            faults: 0,
        })
    }

    /// What it has written.
    pub fn bytes(&self) -> &[u8]
        ensures { result.now ≡ self.now.bytes }
    {
        &self.bytes
    }

    /// How many of its puts failed.
    pub(crate) fn faults(&self) -> u64
        ensures { result ≡ self.now.faults }
    {
        self.faults
    }
}

impl Sink for MemOut {
    ghost written = { λ out. Some out.bytes };

    ghost faults = { λ out. out.faults };

    /// How it was made, which stays.
    ghost mark = { λ out. out.room ∷ out.most ∷ out.failing };

    fn put(&mut self, piece: &[u8]) -> Result<usize, PutFailed>
        requires { 0 < length piece.now }
        ensures exact { Puts piece.now self.old self.new result }
        ensures some { IfOk result (λ n. 0 < n) }
        ensures later { self.old.faults ≤ self.new.faults }
    {
        self.puts = one_more(self.puts);
        let left = self.room - self.bytes.len();
        if is_listed(&self.failing, self.puts) || left == 0 {
            self.faults = one_more(self.faults);
            return Err(PutFailed);
        }
        let taken = self.most.min(piece.len()).min(left);
        match self.bytes.extend_from_slice(&piece[..taken]) {
            Ok(()) => Ok(taken),
            Err(_) => unreachable!(),
        }
    }
}
