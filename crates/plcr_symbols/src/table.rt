ghost use Rattle.std.specs.Prelude.{◌≡◌, ◌≤◌, ◌<◌, ◌+◌, ◌-◌, ◌*◌, ◌/◌, ◌^◌, ℕ, length, None};
ghost use Rattle.std.specs.Bool.{OnTrue, OnFalse};
ghost use Rattle.plcr_loader.specs.declared.nlist_64.TheConstants.{LENGTH};
ghost use Rattle.plcr_macho.specs.Sources.{plus};
ghost use Rattle.plcr_symbols.specs.declared.limits.TheConstants.{PIECE_ROWS};
ghost use Rattle.plcr_symbols.specs.Symbols.{row_at};
ghost use Rattle.plcr_symbols.specs.inner.Gaps.{Gains, Gathers, rows_in};
ghost use Rattle.plcr_symbols.specs.inner.Searches.{HasRoom, row_gains, rows_gain, to_come};

use crate::gaps::keep;
use crate::limits::PIECE_ROWS;
use crate::row::defined_in;
use crate::symbol::SymbolAt;
use plcr_loader::nlist_64::LENGTH;
use plcr_macho::{Image, Symtab};
use plcr_memory::Memory;

const PIECE_BYTES: usize = PIECE_ROWS * LENGTH;

/// The table of an image's symbols, and the addresses, in rising order, whose symbols are looked
/// for in it.
#[derive(Clone, Copy)]
pub struct Search<'a> {
    pub memory: &'a Memory,
    pub image: &'a Image,
    pub table: Symtab,
    pub addresses: &'a [u64],
}

impl Search<'_> {
    // Keeps the symbol of a row.
    #[tactic(auto, using(crate::proofs::Greater::greater_none))]
    fn keep_row(&self, row: &[u8], found: &mut [Option<SymbolAt>])
        requires whole { LENGTH ≤ length row.now }
        requires room { HasRoom self.now found.old }
        ensures gains { Gains self.now.addresses.now (row_gains self.now row.now) found.old
            found.new }
        ensures size { length found.new ≡ length found.old }
    {
        if let Some(symbol) = defined_in(self.image, &self.table, row) {
            keep(self.addresses, found, symbol);
        }
    }

    // Keeps the symbols of rows that stand one behind the other.
    fn keep_rows(&self, rows: &[u8], found: &mut [Option<SymbolAt>])
        requires room { HasRoom self.now found.old }
        ensures gains { Gains self.now.addresses.now
            (rows_gain self.now (rows_in (length rows.now / LENGTH) rows.now)) found.old found.new }
        ensures size { length found.new ≡ length found.old }
    {
        let mut rest = rows;
        while rest.len() >= LENGTH {
            let (row, behind) = rest.split_at(LENGTH);
            self.keep_row(row, found);
            rest = behind;
        }
    }

    // The address of the row at an index.
    fn row_address(&self, index: u64) -> u64
        requires { index < 2 ^ 32 }
        ensures { result ≡ plus self.now.table.rows_at (LENGTH * index) }
    {
        self.table.rows_at.wrapping_add(LENGTH as u64 * index)
    }

    // How many rows from an index on are zeros, as far as the zeros go that one region has there
    // behind its bytes of the file. No such row is of a symbol.
    #[tactic(auto, using(crate::proofs::Zeroed::none_passed))]
    fn zero_rows(&self, index: u64, left: u64) -> u64
        requires { index + left < 2 ^ 32 }
        ensures most { result ≤ left }
        ensures skipped { (k : ℕ) → to_come self.now left index k
            ≡ to_come self.now (left - result) (index + result) k }
    {
        let at = self.row_address(index);
        let rows = u64::min(self.memory.zeros_from(at) / LENGTH as u64, left);
        // The rows are mapped. This tells that they end within the addresses.
        if self.memory.is_mapped(at, LENGTH as u64 * rows) {
            rows
        } else {
            0
        }
    }

    // Keeps the symbols of the rows from an index on that fill the buffer, where all are mapped.
    fn keep_read(
        &self,
        index: u64,
        size: u64,
        buffer: &mut [u8],
        found: &mut [Option<SymbolAt>],
    ) -> bool
        requires whole { length buffer.old ≡ LENGTH * size }
        requires within { index + size < 2 ^ 32 }
        requires room { HasRoom self.now found.old }
        ensures gathers { OnTrue result ((more : ℕ) → Gathers self.now.addresses.now
            found.old (to_come self.now (size + more) index)
            found.new (to_come self.now more (index + size))) }
        ensures same { OnFalse result (found.new ≡ found.old) }
        ensures missing { OnFalse result (size ≡ 1 →
            row_at self.now.memory.now self.now.table.rows_at index ≡ None) }
        ensures size { length found.new ≡ length found.old }
    {
        if !self.memory.copy(self.row_address(index), buffer) {
            return false;
        }
        self.keep_rows(buffer, found);
        true
    }

    // Keeps the symbols of so many rows from an index on, where all are mapped.
    fn keep_piece(&self, index: u64, size: u64, found: &mut [Option<SymbolAt>]) -> bool
        requires least { 1 ≤ size }
        requires most { size ≤ PIECE_ROWS }
        requires within { index + size < 2 ^ 32 }
        requires room { HasRoom self.now found.old }
        ensures gathers { OnTrue result ((more : ℕ) → Gathers self.now.addresses.now
            found.old (to_come self.now (size + more) index)
            found.new (to_come self.now more (index + size))) }
        ensures same { OnFalse result (found.new ≡ found.old) }
        ensures missing { OnFalse result (size ≡ 1 →
            row_at self.now.memory.now self.now.table.rows_at index ≡ None) }
        ensures size { length found.new ≡ length found.old }
    {
        let mut buffer = [0; PIECE_BYTES];
        self.keep_read(index, size, &mut buffer[..LENGTH * size as usize], found)
    }

    /// Goes through the rows of the table once. A piece of them that isn't wholly mapped is halved.
    pub fn keep_table(&self, found: &mut [Option<SymbolAt>])
        requires room { HasRoom self.now found.old }
        ensures gains { Gains self.now.addresses.now (to_come self.now self.now.table.rows 0)
            found.old found.new }
        ensures size { length found.new ≡ length found.old }
    {
        let rows = u64::from(self.table.rows);
        let mut index = 0;
        let mut size = PIECE_ROWS as u64;
        while index < rows {
            size = u64::min(size, rows - index);
            let zeros = self.zero_rows(index, rows - index);
            if zeros > 0 {
                index += zeros;
            } else if self.keep_piece(index, size, found) {
                index += size;
            } else if size > 1 {
                size /= 2;
            } else {
                return;
            }
        }
    }
}
