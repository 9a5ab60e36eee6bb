ghost use Rattle.std.specs.Prelude.{◌≡◌, ◌<◌, ◌+◌, ℕ, length, map};
ghost use Rattle.std.specs.List.Sorted.{IsNonDecreasing};
ghost use Rattle.plcr_symbols.specs.Symbols.{symbol_at};
ghost use Rattle.plcr_symbols.specs.inner.Gaps.{kept_at, named_or, settled};

use crate::names::named;
use crate::symbol::SymbolAt;
use crate::table::Search;
use plcr_macho::Image;
use plcr_memory::Memory;

// The symbol of a gap with its name, or the answer below where the gap has none.
fn named_or(memory: &Memory, kept: Option<SymbolAt>, below: Option<SymbolAt>) -> Option<SymbolAt>
    ensures { result ≡ named_or memory.now kept below }
{
    match kept {
        Some(symbol) => named(memory, symbol),
        None => below,
    }
}

// Makes answers of what the gaps keep, from low to high. So the name of each row is read once.
fn settle(memory: &Memory, found: &mut [Option<SymbolAt>])
    ensures settled { (k : ℕ) → k < length found.old →
        kept_at found.new k ≡ settled memory.now found.old (k + 1) }
    ensures size { length found.new ≡ length found.old }
{
    let mut below = None;
    for answer in found.iter_mut() {
        below = named_or(memory, *answer, below);
        *answer = below;
    }
}

/// The symbols of rising addresses of one image, each that of `find`, in as much room as there are
/// addresses. The rows of the image's table are gone through once, with a search among the
/// addresses by halves for each that may count.
pub fn find_all(memory: &Memory, image: &Image, addresses: &[u64], found: &mut [Option<SymbolAt>])
    requires rising { IsNonDecreasing addresses.now }
    requires room { length found.old ≡ length addresses.now }
    ensures { found.new ≡ map (symbol_at memory.now image.now) addresses.now }
{
    found.fill(None);
    let Some(table) = image.symtab else {
        return;
    };
    let search = Search {
        memory,
        image,
        table,
        addresses,
    };
    search.keep_table(found);
    settle(memory, found);
}

/// The symbol of an address of an image: of the rows of its table that are defined in a section,
/// lie in `__TEXT` and aren't above the address the one with the greatest address, the first on a
/// tie. None where there is no such row, or where its name doesn't stand in memory, ended by a zero
/// within the table of names, with at most [`SYMBOL_NAME_BYTES`](crate::SYMBOL_NAME_BYTES) bytes.
pub fn find(memory: &Memory, image: &Image, address: u64) -> Option<SymbolAt>
    ensures { result ≡ symbol_at memory.now image.now address }
{
    let mut found = [None];
    find_all(memory, image, &[address], &mut found);
    found[0]
}
