//! Lists of loaded images, as a walk over them sees them.
ghost use Rattle.std.specs.Prelude.{◌≡◌, ℕ, ◌*◌, ◌^◌, ◌<◌, List, length, Option, Some, IsSome};
ghost use Rattle.plcr_base.specs.Bytes.{IsBytes};
ghost use Rattle.plcr_base.specs.Numbers.{u64_in};
ghost use Rattle.plcr_memory.specs.Regions.{Contents};
ghost use Rattle.plcr_macho.specs.Images.{Listed, listed_at};
ghost use Rattle.plcr_macho.specs.Index.{Extent, index_of, located};

use plcr_memory::Memory;
use plcr_regs::Arch;

/// A list of loaded images, each with the address of its header and its name. It takes no memory to
/// read it.
pub trait Images {
    /// The images, in order. No call changes them.
    ghost images: { Self → List Listed };

    /// Its index: none, or where its images that can be read have their `__TEXT`, for one memory
    /// and architecture.
    ghost extents: { Self → Option (List Extent) };

    /// What may become of such a value over calls that read from it: a relation of the type's own
    /// choice.
    ghost follows: { Self → Self → Type 0 };

    /// How many images there are.
    fn count(&self) -> usize
        ensures { result ≡ length (images self.now) };

    /// The address of an image's header.
    fn header(&mut self, i: usize) -> u64
        requires { i < length (images self.old) }
        ensures header { result ≡ (listed_at (images self.old) i).header }
        ensures same { images self.new ≡ images self.old }
        ensures index { extents self.new ≡ extents self.old }
        ensures follows { follows self.old self.new };

    /// How many bytes an image's name has. Names are lists of bytes.
    fn name_len(&mut self, i: usize) -> usize
        requires { i < length (images self.old) }
        ensures length { result ≡ length (listed_at (images self.old) i).name }
        ensures bytes { IsBytes (listed_at (images self.old) i).name }
        ensures same { images self.new ≡ images self.old }
        ensures index { extents self.new ≡ extents self.old }
        ensures follows { follows self.old self.new };

    /// The bytes 8j to 8j + 7 of an image's name, the lowest first, with zeros past its end.
    fn name_word(&mut self, i: usize, j: usize) -> u64
        requires image { i < length (images self.old) }
        requires word { 8 * j < length (listed_at (images self.old) i).name }
        ensures word { result ≡ u64_in (listed_at (images self.old) i).name (8 * j) }
        ensures same { images self.new ≡ images self.old }
        ensures index { extents self.new ≡ extents self.old }
        ensures follows { follows self.old self.new };

    /// Makes the index for a memory and an architecture, in place of the one before. There are
    /// fewer than 2^32 images.
    fn index(&mut self, memory: &Memory, arch: Arch)
        requires { length (images self.old) < 2 ^ 32 }
        ensures index { extents self.new ≡ Some (index_of memory.now arch (images self.old)) }
        ensures same { images self.new ≡ images self.old }
        ensures follows { follows self.old self.new };

    /// The least index of an image that has the address in its `__TEXT`, by the index, which has to
    /// be there.
    fn locate(&mut self, address: u64) -> Option<usize>
        requires { IsSome (extents self.old) }
        ensures place { result ≡ located (extents self.old) address }
        ensures same { images self.new ≡ images self.old }
        ensures index { extents self.new ≡ extents self.old }
        ensures follows { follows self.old self.new };

    /// A value follows itself.
    ghost follows_itself: { (x : Self) → follows x x };

    /// What follows a value that follows another follows that one too.
    ghost follows_on: { (x y z : Self) → follows x y → follows y z → follows x z };
}
