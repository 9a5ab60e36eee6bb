//! A sink over a file of the system, standard output or another writer. It tells nothing of what it
//! has written.
ghost use Rattle.std.specs.Prelude.{◌≡◌, ◌<◌, ◌≤◌, [], length, None, IfOk};
ghost use Rattle.plcr_io.specs.Counting.{count_after};
ghost use Rattle.plcr_io.specs.inner.Tries.{Tries};

use crate::counting::one_more;
use crate::{PutFailed, Sink};
use std::io::{ErrorKind, Write};
use std::marker::Model;

/// A sink over a writer, as a file or standard output.
#[derive(Drop)]
pub struct HostOut<W> {
    writer: W,
    faults: u64,
}

// What is seen of it is the count of its failures.
impl<W> Model for HostOut<W> {
    ghost use Rattle.std.specs.Prelude.{ℕ};

    ghost Value = { ℕ };

    ghost view = { λ out. out.faults };
}

impl<W> HostOut<W> {
    /// A sink that has written nothing yet.
    pub fn new(writer: W) -> Self
        ensures { result ≡ 0 }
    {
        HostOut { writer, faults: 0 }
    }

    /// How often it has failed.
    pub fn faults(&self) -> u64
        ensures { result ≡ self.now }
    {
        self.faults
    }
}

/// One write, tried again where a signal interrupts it. `None` where it fails, or takes no byte.
fn write_some<W: Write>(writer: &mut W, piece: &[u8]) -> Option<usize>
    ensures { Tries W.contents piece.now writer.old writer.new result }
{
    for _ in 0..u64::MAX {
        match writer.write(piece) {
            Ok(0) => return None,
            Ok(n) => return Some(n),
            Err(e) => {
                if e.kind() != ErrorKind::Interrupted {
                    return None;
                }
            }
        }
    }
    None
}

impl<W: Write> Sink for HostOut<W> {
    ghost written = { λ _. None };

    ghost faults = { λ out. out };

    ghost mark = { λ _. [] };

    fn put(&mut self, piece: &[u8]) -> Result<usize, PutFailed>
        requires { 0 < length piece.now }
        ensures counts { self.new ≡ count_after self.old result }
        ensures some { IfOk result (λ n. 0 < n) }
        ensures within { IfOk result (λ n. n ≤ length piece.now) }
        ensures later { self.old ≤ self.new }
    {
        match write_some(&mut self.writer, piece) {
            Some(n) => Ok(n),
            None => {
                self.faults = one_more(self.faults);
                Err(PutFailed)
            }
        }
    }
}

#[cfg(test)]
mod tests {
    use super::*;
    use arrayvec::ArrayVec;
    use std::io;

    // A writer that is interrupted, then takes two bytes, and fails from then on.
    #[derive(Drop)]
    struct Fitful {
        writes: u32,
        bytes: ArrayVec<u8, 4>,
    }

    impl Write for Fitful {
        fn write(&mut self, piece: &[u8]) -> io::Result<usize> {
            self.writes = self.writes.saturating_add(1);
            match self.writes {
                1 => Err(ErrorKind::Interrupted.into()),
                2 => {
                    let taken = &piece[..piece.len().min(2)];
                    match self.bytes.try_extend_from_slice(taken) {
                        Ok(()) => Ok(taken.len()),
                        Err(_) => Ok(0),
                    }
                }
                _ => Err(ErrorKind::StorageFull.into()),
            }
        }

        fn flush(&mut self) -> io::Result<()> {
            Ok(())
        }
    }

    #[test]
    fn interrupted_writes_are_tried_again(rt: HostRuntime) {
        let mut out = HostOut::new(Fitful {
            writes: 0,
            bytes: ArrayVec::new(),
        });
        let puts = [
            ("abc", Ok(2), 2, 0),
            ("c", Err(PutFailed), 3, 1),
            ("c", Err(PutFailed), 4, 2),
        ];
        for (piece, want, writes, faults) in puts {
            assert_eq!(rt; out.put(piece.as_bytes()), want);
            assert_eq!(rt; out.writer.bytes.as_slice(), b"ab".as_slice());
            assert_eq!(rt; out.writer.writes, writes);
            assert_eq!(rt; out.faults(), faults);
        }
    }

    // A writer of which each write ends so.
    #[derive(Drop)]
    struct Ended {
        kind: Option<ErrorKind>,
    }

    impl Write for Ended {
        fn write(&mut self, _piece: &[u8]) -> io::Result<usize> {
            match self.kind {
                Some(kind) => Err(kind.into()),
                None => Ok(0),
            }
        }

        fn flush(&mut self) -> io::Result<()> {
            Ok(())
        }
    }

    #[test]
    fn a_write_that_fails_or_takes_nothing_is_a_failure(rt: HostRuntime) {
        for kind in [Some(ErrorKind::BrokenPipe), None] {
            let mut out = HostOut::new(Ended { kind });
            assert_eq!(rt; out.put(b"x"), Err(PutFailed));
            assert_eq!(rt; out.faults(), 1);
        }
    }
}
