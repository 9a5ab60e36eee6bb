ghost use Rattle.std.specs.Prelude.{◌≡◌, ◌≤◌, ℕ, Some, IsSome};
ghost use Rattle.plcr_memory.specs.Regions.{Contents, bytes_at};
ghost use Rattle.plcr_macho.specs.declared.image.Image.{Image};
ghost use Rattle.plcr_macho.specs.declared.image.Symtab.{Symtab};
ghost use Rattle.plcr_symbols.specs.declared.limits.TheConstants.{SYMBOL_NAME_BYTES};
ghost use Rattle.plcr_symbols.specs.declared.symbol.SymbolAt.{SymbolAt};
ghost use Rattle.plcr_symbols.specs.Laws.{AreRows, IsSymbol};
ghost use Rattle.plcr_symbols.specs.Symbols.{rows_of, symbol_at};

/// What the symbol of an address is: that of the row, among those that may have it, with the
/// greatest address not above, the first on a tie.
pub fn symbols_lie()
    // A symbol that is found is that.
    ensures found { (memory : Contents) (image : Image) (address : ℕ) (symbol : SymbolAt) →
        symbol_at memory image address ≡ Some symbol → IsSymbol memory image address symbol }

    // A symbol that is that is found. So none is found exactly where there is none.
    ensures only { (memory : Contents) (image : Image) (address : ℕ) (symbol : SymbolAt) →
        IsSymbol memory image address symbol → symbol_at memory image address ≡ Some symbol }

    // The rows that are looked at are those of the table.
    ensures rows { (memory : Contents) (table : Symtab) →
        AreRows memory table (rows_of memory table) }

    // The name of a symbol that is found can be read.
    ensures name { (memory : Contents) (image : Image) (address : ℕ) (symbol : SymbolAt) →
        symbol_at memory image address ≡ Some symbol →
        IsSome (bytes_at memory symbol.name_at symbol.name_len) }
    ensures short { (memory : Contents) (image : Image) (address : ℕ) (symbol : SymbolAt) →
        symbol_at memory image address ≡ Some symbol → symbol.name_len ≤ SYMBOL_NAME_BYTES }
{}
