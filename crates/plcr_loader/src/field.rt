ghost use Rattle.std.specs.Prelude.{◌≡◌, ◌≤◌, ◌+◌, length};
ghost use Rattle.plcr_loader.specs.Fields.{bytes_of, is_named, number};

use plcr_base::{read_u16, read_u32, read_u64};

/// A field of a structure: the place where it stands, and how many bytes it has.
#[derive(Clone, Copy, Debug, PartialEq, Eq)]
pub struct Field {
    pub at: usize,
    pub size: usize,
}

impl Field {
    /// The bytes of the field in those of its structure.
    #[tactic(auto, unfolding(crate::specs::Fields::bytes_of))]
    pub fn bytes(self, structure: &[u8]) -> &[u8]
        requires { self.at + self.size ≤ length structure.now }
        ensures bytes { result.now ≡ bytes_of self structure.now }
        ensures length { length result.now ≡ self.size }
    {
        let (_, rest) = structure.split_at(self.at);
        let (field, _) = rest.split_at(self.size);
        field
    }

    /// Whether the field has this name, compared as all of its bytes.
    pub fn is_named(self, structure: &[u8], name: &[u8]) -> bool
        requires { self.at + self.size ≤ length structure.now }
        ensures { result ≡ is_named self name.now structure.now }
    {
        self.bytes(structure) == name
    }

    /// The number in a field of 1 byte.
    #[tactic(auto, unfolding(crate::specs::Fields::number))]
    pub fn read_u8(self, structure: &[u8]) -> u8
        requires size { self.size ≡ 1 }
        requires there { self.at + self.size ≤ length structure.now }
        ensures { result ≡ number self structure.now }
    {
        structure[self.at]
    }

    /// The number in a field of 2 bytes.
    #[tactic(auto, unfolding(crate::specs::Fields::number, plcr_base::specs::Numbers::u16_in))]
    pub fn read_u16(self, structure: &[u8]) -> u16
        requires size { self.size ≡ 2 }
        requires there { self.at + self.size ≤ length structure.now }
        ensures { result ≡ number self structure.now }
    {
        read_u16(structure, self.at)
    }

    /// The number in a field of 4 bytes.
    #[tactic(auto, unfolding(crate::specs::Fields::number, plcr_base::specs::Numbers::u32_in))]
    pub fn read_u32(self, structure: &[u8]) -> u32
        requires size { self.size ≡ 4 }
        requires there { self.at + self.size ≤ length structure.now }
        ensures { result ≡ number self structure.now }
    {
        read_u32(structure, self.at)
    }

    /// The number in a field of 8 bytes.
    #[tactic(auto, unfolding(crate::specs::Fields::number, plcr_base::specs::Numbers::u64_in))]
    pub fn read_u64(self, structure: &[u8]) -> u64
        requires size { self.size ≡ 8 }
        requires there { self.at + self.size ≤ length structure.now }
        ensures { result ≡ number self structure.now }
    {
        read_u64(structure, self.at)
    }
}
