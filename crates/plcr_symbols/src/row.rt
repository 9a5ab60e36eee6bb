ghost use Rattle.std.specs.Prelude.{◌≡◌, ◌≤◌, length};
ghost use Rattle.plcr_loader.specs.declared.nlist_64.TheConstants.{LENGTH};
ghost use Rattle.plcr_symbols.specs.Symbols.{defined_in, in_text, is_defined};

use crate::symbol::SymbolAt;
use plcr_loader::nlist_64::{N_STRX, N_VALUE};
use plcr_loader::{N_SECT, N_STAB, N_TYPE, nlist_64};
use plcr_macho::{Image, Symtab};

#[tactic(auto, unfolding(crate::specs::Symbols::is_defined))]
fn is_defined(row: &[u8]) -> bool
    requires { LENGTH ≤ length row.now }
    ensures { result ≡ is_defined row.now }
{
    let kind = nlist_64::N_TYPE.read_u8(row);
    kind & N_STAB == 0 && kind & N_TYPE == N_SECT
}

fn in_text(image: &Image, address: u64) -> bool
    ensures { result ≡ in_text image.now address }
{
    image.header <= address && address - image.header < image.text_size
}

/// What a row says of its symbol, where this is defined in a section and lies in the image's
/// `__TEXT`. Its name is not looked at: it has as many bytes as the table of names from there on.
#[tactic(auto, unfolding(crate::specs::Symbols::defined_in))]
pub fn defined_in(image: &Image, table: &Symtab, row: &[u8]) -> Option<SymbolAt>
    requires { LENGTH ≤ length row.now }
    ensures { result ≡ defined_in image.now table.now row.now }
{
    let value = N_VALUE.read_u64(row).wrapping_add(image.slide);
    if !is_defined(row) || !in_text(image, value) {
        return None;
    }
    let name = N_STRX.read_u32(row);
    Some(SymbolAt {
        value,
        name_at: table.strings_at.wrapping_add(u64::from(name)),
        name_len: table.strings.saturating_sub(name),
    })
}
