//! The symbols of frames: one pass over the table of each image that they lie in.
ghost use Rattle.std.specs.Prelude.{◌≡◌, ◌<◌, ℕ, Option, All, IfSome, IsTrue, length, map};
ghost use Rattle.std.specs.List.Sorted.{IsNonDecreasing, IsPermutation};
ghost use Rattle.plcr_encode.specs.inner.FrameRows.{IsBare, IsPlaced, symbol_by};
ghost use Rattle.plcr_symbols.specs.declared.symbol.SymbolAt.{SymbolAt};
ghost use Rattle.plcr_encode.specs.inner.Lookups.{IsWithin, address_of, answer, answered, lookups_for};

use crate::frame_rows::FrameRow;
use crate::lookups::{Lookup, list_addresses, list_lookups, run_len};
use crate::room::Room;
use plcr_macho::{Images, parse};
use plcr_memory::Memory;
use plcr_regs::Arch;
use plcr_symbols::{SymbolAt, find_all};

/// Finds the symbols of rising addresses in the image at a position.
fn answer_run<I: Images>(
    found: &mut [Option<SymbolAt>],
    images: &mut I,
    memory: &Memory,
    arch: Arch,
    position: Option<usize>,
    addresses: &[u64],
)
    requires within { IfSome position (λ i. i < length (I.images images.old)) }
    requires rising { IsNonDecreasing addresses.now }
    requires room { length found.old ≡ length addresses.now }
    ensures found { found.new ≡ map (symbol_by memory.now arch (I.images images.old) position)
        addresses.now }
    ensures same { I.images images.new ≡ I.images images.old }
    ensures index { I.extents images.new ≡ I.extents images.old }
    ensures follows { I.follows images.old images.new }
{
    found.fill(None);
    if let Some(i) = position {
        let header = images.header(i);
        if let Ok(image) = parse(memory, arch, header) {
            find_all(memory, &image, addresses, found);
        }
    }
}

/// Finds the symbols that are looked for, in one search for each run of lookups in an image.
fn answer_all<I: Images>(
    found: &mut [Option<SymbolAt>],
    images: &mut I,
    memory: &Memory,
    arch: Arch,
    lookups: &[Lookup],
    addresses: &[u64],
)
    requires within { All (IsWithin (I.images images.old)) lookups.now }
    requires addresses { addresses.now ≡ map address_of lookups.now }
    requires room { length found.old ≡ length lookups.now }
    ensures found { found.new ≡ map (answer (symbol_by memory.now arch (I.images images.old)))
        lookups.now }
    ensures same { I.images images.new ≡ I.images images.old }
    ensures index { I.extents images.new ≡ I.extents images.old }
    ensures follows { I.follows images.old images.new }
{
    let mut done = 0;
    while done < lookups.len() {
        let until = done + run_len(&lookups[done..]);
        let position = lookups[done].position;
        let addresses = &addresses[done..until];
        answer_run(
            &mut found[done..until],
            images,
            memory,
            arch,
            position,
            addresses,
        );
        done = until;
    }
}

/// Gives each row the symbol that was found for it.
fn give_symbols(rows: &mut [FrameRow], lookups: &[Lookup], found: &[Option<SymbolAt>])
    requires lookups { IsPermutation (lookups_for rows.old) lookups.now }
    requires room { length found.now ≡ length lookups.now }
    ensures { (symbol : Option ℕ → ℕ → Option SymbolAt) →
        found.now ≡ map (answer symbol) lookups.now → rows.new ≡ map (answered symbol) rows.old }
{
    for (i, lookup) in lookups.iter().enumerate() {
        rows[lookup.frame].symbol = found[i];
    }
}

/// Gives each row the symbol that is looked for it.
fn answer_rows<I: Images>(
    rows: &mut [FrameRow],
    found: &mut [Option<SymbolAt>],
    images: &mut I,
    memory: &Memory,
    arch: Arch,
    lookups: &[Lookup],
    addresses: &[u64],
)
    requires placed { All (IsPlaced (I.images images.old)) rows.old }
    requires lookups { IsPermutation (lookups_for rows.old) lookups.now }
    requires addresses { addresses.now ≡ map address_of lookups.now }
    requires room { length found.old ≡ length lookups.now }
    ensures found { rows.new ≡ map (answered (symbol_by memory.now arch (I.images images.old)))
        rows.old }
    ensures same { I.images images.new ≡ I.images images.old }
    ensures index { I.extents images.new ≡ I.extents images.old }
    ensures follows { I.follows images.old images.new }
{
    answer_all(found, images, memory, arch, lookups, addresses);
    give_symbols(rows, lookups, found);
}

/// Whether no symbol is to be looked for.
fn are_bare(rows: &[FrameRow]) -> bool
    ensures { IsTrue result → All IsBare rows.now }
{
    rows.iter().all(|row| row.is_bare())
}

/// Finds the symbols of the rows of threads' frames. The lookups are sorted by image and address,
/// so that the table of each image is gone through once, and the rows keep their order. Where no
/// image with a symbol table has an address of the rows, nothing is looked for.
pub(crate) fn find_symbols<I: Images>(room: &mut Room, images: &mut I, memory: &Memory, arch: Arch)
    requires { All (IsPlaced (I.images images.old)) room.old.rows.items }
    ensures counts { room.new.counts.items ≡ room.old.counts.items }
    ensures found { room.new.rows.items
        ≡ map (answered (symbol_by memory.now arch (I.images images.old))) room.old.rows.items }
    ensures same { I.images images.new ≡ I.images images.old }
    ensures index { I.extents images.new ≡ I.extents images.old }
    ensures follows { I.follows images.old images.new }
{
    if are_bare(room.rows()) {
        return;
    }
    let Room {
        rows,
        counts: _,
        lookups,
        addresses,
        found,
    } = room;
    list_lookups(lookups, rows.as_slice());
    lookups.sort_unstable_by_key(|lookup| (lookup.position, lookup.address));
    list_addresses(addresses, found, lookups.as_slice());
    answer_rows(
        rows.as_mut_slice(),
        found.as_mut_slice(),
        images,
        memory,
        arch,
        lookups.as_slice(),
        addresses.as_slice(),
    );
}
