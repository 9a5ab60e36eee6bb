//! A desk over the files of the system. It tells nothing of content. Its calls stand on trust in
//! the system; what is counted is each failure.
ghost use Rattle.std.specs.Prelude.{◌≡◌, ◌≢◌, ℕ, ◌<◌, ◌≤◌, [], length, None, IfOk, IsErrOf};
ghost use Rattle.plcr_io.specs.declared.desks.TakeFault.TheVariants.{TooLong};

use crate::counting::one_more;
use crate::{Desk, HostOut, MakeFailed, PutFailed, Sink, TakeFault};
use arrayvec::ArrayString;
use std::alloc::Global;
use std::fs::{File, OpenFile};
use std::io::{ErrorKind, Read, Write};
use std::marker::Model;
use std::rt::Files;
use std::{fs, io};

// The system takes no longer path.
const LONGEST_PATH: usize = 4096;

/// An output of a `HostDesk`, which is written under its name with `.part` behind it.
/// Each put is a call of the system.
#[derive(Drop)]
pub struct HostFile<F> {
    out: HostOut<F>,
    part: ArrayString<LONGEST_PATH>,
}

// What is seen of it is the count of its failures.
impl<F> Model for HostFile<F> {
    ghost use Rattle.std.specs.Prelude.{ℕ};

    ghost Value = { ℕ };

    ghost view = { λ file. file.out };
}

impl<F: Write> Sink for HostFile<F> {
    ghost written = { λ _. None };

    ghost faults = { λ file. file };

    ghost mark = { λ _. [] };

    fn put(&mut self, piece: &[u8]) -> Result<usize, PutFailed> {
        self.out.put(piece)
    }

    fn is_dear(&self) -> bool {
        true
    }
}

/// A desk over the files of the system, whose names are paths.
#[derive(Drop)]
pub struct HostDesk<R> {
    files: R,
    take_faults: u64,
    out_faults: u64,
}

// What is seen of it are the counts of its failures.
impl<R> Model for HostDesk<R> {
    ghost use Rattle.plcr_io.specs.HostDesk.{Counts};

    ghost Value = { Counts };

    ghost view = { λ desk. record {
      take_faults = desk.take_faults;
      out_faults =
          desk.out_faults;
    } };
}

impl<R> HostDesk<R> {
    /// A desk over these files, as those of the runtime.
    pub fn new(files: R) -> Self
        ensures { result ≡ record { take_faults = 0; out_faults = 0 } }
    {
        HostDesk {
            files,
            take_faults: 0,
            out_faults: 0,
        }
    }
}

/// The name with `.part` behind it.
fn part_name(name: &str) -> Option<ArrayString<LONGEST_PATH>> {
    let mut part = ArrayString::new();
    part.try_push_str(name).ok()?;
    part.try_push_str(".part").ok()?;
    Some(part)
}

/// Why reading failed.
fn read_fault(error: io::Error) -> TakeFault
    ensures { (n : ℕ) → result ≢ TooLong n }
{
    match error.kind() {
        ErrorKind::OutOfMemory => TakeFault::Memory,
        _ => TakeFault::Failed,
    }
}

/// The whole bytes of a file, whose room is reserved by the size that the system tells. One byte
/// past the limit is read at most.
fn read_whole<R: Files>(
    files: &R,
    alloc: Global,
    name: &str,
    limit: u64,
) -> Result<Vec<u8>, TakeFault>
    ensures within { IfOk result (λ whole. length whole.items ≤ limit) }
    ensures too_long { (n : ℕ) → IsErrOf result (TooLong n) → n ≡ limit }
{
    let file = File::open(files, name).map_err(read_fault)?;
    let told = file.metadata().map_err(read_fault)?.len().min(limit);
    let mut whole = Vec::with_capacity(alloc, told.saturating_add(1) as usize)?;
    file.take(limit.saturating_add(1))
        .read_to_end(&mut whole)
        .map_err(read_fault)?;
    if whole.len() as u64 > limit {
        return Err(TakeFault::TooLong { limit });
    }
    Ok(whole)
}

impl<R: Files> Desk for HostDesk<R> {
    ghost use Rattle.plcr_io.specs.Desk.{Takes, Makes, Keeps, Abandons, HasOpen};
    ghost use Rattle.plcr_io.specs.HostDesk.{tells, after_take, after_output, after_abandon};

    type Out = HostFile<R::File>;

    ghost told = { tells };

    ghost balances = { λ _. tt };

    fn take(&mut self, alloc: Global, name: &str, limit: u64) -> Result<Vec<u8>, TakeFault>
        ensures counts { self.new ≡ after_take self.old result }
        ensures told { Takes name.now limit (tells self.old) (tells self.new) result }
    {
        let whole = read_whole(&self.files, alloc, name, limit);
        if let Err(TakeFault::Failed) = &whole {
            self.take_faults = one_more(self.take_faults);
        }
        whole
    }

    fn make(&mut self, name: &str) -> Result<HostFile<R::File>, MakeFailed>
        ensures counts { self.new ≡ after_output self.old result }
        ensures told { Makes (λ _. None) (λ file. file) name.now (tells self.old) (tells self.new)
            result }
    {
        if let Some(part) = part_name(name) {
            if let Ok(file) = fs::create(&self.files, part.as_str()) {
                let out = HostOut::new(file);
                return Ok(HostFile { out, part });
            }
        }
        self.out_faults = one_more(self.out_faults);
        Err(MakeFailed)
    }

    fn keep(&mut self, name: &str, out: HostFile<R::File>) -> Result<(), MakeFailed>
        ensures counts { self.new ≡ after_output self.old result }
        ensures told { Keeps name.now None (tells self.old) (tells self.new) result }
    {
        let HostFile { out, part } = out;
        drop(out);
        if fs::rename(&self.files, part.as_str(), name).is_ok() {
            return Ok(());
        }
        let _ = fs::remove_file(&self.files, part.as_str());
        self.out_faults = one_more(self.out_faults);
        Err(MakeFailed)
    }

    fn abandon(&mut self, out: HostFile<R::File>)
        ensures counts { self.new ≡ after_abandon self.old out }
        ensures told { Abandons None out (tells self.old) (tells self.new) }
    {
        let HostFile { out, part } = out;
        if out.faults() > 0 {
            self.out_faults = one_more(self.out_faults);
        }
        drop(out);
        let _ = fs::remove_file(&self.files, part.as_str());
    }
}

#[cfg(test)]
mod tests {
    use super::*;
    use crate::Gathered;
    use std::alloc::Allocator;
    use std::cell::Cell;
    use std::fs::{Metadata, OpenOptions};
    use std::io::{Seek, SeekFrom};
    use std::test::*;

    fn unsupported<T>() -> io::Result<T> {
        Err(ErrorKind::Unsupported.into())
    }

    // A file that takes no byte.
    #[derive(Drop)]
    struct FullFile;

    impl Read for FullFile {
        fn read(&mut self, _into: &mut [u8]) -> io::Result<usize> {
            Ok(0)
        }
    }

    impl Write for FullFile {
        fn write(&mut self, _piece: &[u8]) -> io::Result<usize> {
            Err(ErrorKind::StorageFull.into())
        }

        fn flush(&mut self) -> io::Result<()> {
            Ok(())
        }
    }

    impl Seek for FullFile {
        fn seek(&mut self, _to: SeekFrom) -> io::Result<u64> {
            unsupported()
        }
    }

    impl OpenFile for FullFile {
        fn metadata(&self) -> io::Result<Metadata> {
            unsupported()
        }

        fn set_len(&self, _size: u64) -> io::Result<()> {
            unsupported()
        }

        fn sync_all(&self) -> io::Result<()> {
            unsupported()
        }

        fn sync_data(&self) -> io::Result<()> {
            unsupported()
        }
    }

    // A full disk: files are made there, renamed and removed, and take no byte. It counts what is
    // renamed and removed.
    #[derive(Drop)]
    struct FullDisk<'a> {
        renamed: &'a Cell<u32>,
        removed: &'a Cell<u32>,
    }

    impl Files for FullDisk<'_> {
        type File = FullFile;

        type Dir = FullFile;

        fn open_file(&self, _how: &OpenOptions, _path: &str) -> io::Result<FullFile> {
            Ok(FullFile)
        }

        fn rename(&self, _from: &str, _to: &str) -> io::Result<()> {
            self.renamed.set(self.renamed.get().saturating_add(1));
            Ok(())
        }

        fn remove_file(&self, path: &str) -> io::Result<()> {
            if path == "report.part" {
                self.removed.set(self.removed.get().saturating_add(1));
            }
            Ok(())
        }

        fn open_dir(&self, _path: &str) -> io::Result<FullFile> {
            unsupported()
        }

        fn metadata(&self, _path: &str) -> io::Result<Metadata> {
            unsupported()
        }

        fn symlink_metadata(&self, _path: &str) -> io::Result<Metadata> {
            unsupported()
        }

        fn copy(&self, _from: &str, _to: &str) -> io::Result<u64> {
            unsupported()
        }

        fn create_dir(&self, _path: &str) -> io::Result<()> {
            unsupported()
        }

        fn remove_dir(&self, _path: &str) -> io::Result<()> {
            unsupported()
        }

        fn remove_dir_all<B: Allocator>(&self, _alloc: B, _path: &str) -> io::Result<()> {
            unsupported()
        }
    }

    // What was gathered for an output is passed on at the end, and a full disk shows then.
    #[test]
    fn a_full_disk_shows_as_gathering_ends(rt: HostRuntime) -> Result<(), Fail> {
        let (renamed, removed) = (Cell::new(0), Cell::new(0));
        let mut desk = HostDesk::new(FullDisk {
            renamed: &renamed,
            removed: &removed,
        });
        let mut out = desk.make("report")?;
        assert!(rt; out.is_dear());
        let mut gathered = Gathered::new(&mut out);
        assert_eq!(rt; gathered.put(b"text"), Ok(4));
        assert_eq!(rt; gathered.finish(), Err(PutFailed));
        assert_eq!(rt; out.out.faults(), 1);
        desk.abandon(out);
        assert_eq!(rt; desk.out_faults, 1);
        assert_eq!(rt; (renamed.get(), removed.get()), (0, 1));

        // Nothing was put to the next, so it is kept.
        let out = desk.make("report")?;
        assert_eq!(rt; desk.keep("report", out), Ok(()));
        assert_eq!(rt; desk.out_faults, 1);
        assert_eq!(rt; (renamed.get(), removed.get()), (1, 1));
        Ok(())
    }
}
