//! The images that a hold has met, as a list.
ghost use Rattle.std.specs.Prelude.{◌≡◌, ◌*◌, ◌<◌, ◌≤◌, length, All};
ghost use Rattle.plcr_base.specs.Bytes.{IsBytes};
ghost use Rattle.plcr_base.specs.Numbers.{u64_in};
ghost use Rattle.plcr_base.specs.Limits.{IsImageName};
ghost use Rattle.plcr_machine.specs.declared.limits.TheConstants.{MOST_NODES};
ghost use Rattle.plcr_macho.specs.Images.{listed_at};
ghost use Rattle.plcr_imagelist.specs.Walk.{images_of, IsSameWalk};

use crate::hold::Hold;
use crate::list::ImageList;
use plcr_macho::Images;
use plcr_memory::Memory;
use plcr_regs::Arch;

/// The images that a hold has met so far. Each is read from the list's words at each call, also
/// after it was unloaded.
#[derive(Drop)]
pub struct Walk<'a> {
    hold: &'a mut Hold,
    list: &'a ImageList,
    /// Whether the hold's index is one of this walk.
    indexed: bool,
    ghost on_list: { hold.now.walker.table ≡ list.now },
}

impl Hold {
    ghost use Rattle.std.specs.Prelude.{None};
    ghost use Rattle.plcr_imagelist.specs.Lending.{lent_hold, walked_extents, walked_list};

    /// The images met so far, as a list. The walk borrows the hold: once it is dropped, the hold is
    /// as the walk's last value has it.
    pub fn images<'a>(&'a mut self, list: &'a ImageList) -> Walk<'a>
        requires { self.old.walker.table ≡ list.now }
        ensures same_reference { (lent_hold result).ghost_name ≡ self.entry.ghost_name }
        ensures hold { (lent_hold result).now ≡ self.old }
        ensures list { walked_list result ≡ list.now }
        ensures index { walked_extents result ≡ None }
        ensures few { length (images_of self.old) ≤ MOST_NODES }
        ensures short { All (λ image. IsImageName image.name) (images_of self.old) }
    {
        // The hold has to be read here, so that its invariant is known where it is lent.
        let _ = &self.met;
        Walk {
            hold: self,
            list,
            indexed: false,
        }
    }

    // How many images were met.
    fn count(&self) -> usize
        ensures { result ≡ length (images_of self.now) }
    {
        self.met.len()
    }

    // The header of an image that was met.
    fn header_at(&mut self, list: &ImageList, at: usize) -> u64
        requires list { self.old.walker.table ≡ list.now }
        requires met { at < length (images_of self.old) }
        ensures header { result ≡ (listed_at (images_of self.old) at).header }
        ensures same { IsSameWalk self.old self.new }
        ensures index { self.new.extents ≡ self.old.extents }
    {
        let node = self.met[at];
        self.pass.payload(&list.nodes, node, 0)
    }

    // The length of its name.
    fn name_len_at(&mut self, list: &ImageList, at: usize) -> usize
        requires list { self.old.walker.table ≡ list.now }
        requires met { at < length (images_of self.old) }
        ensures length { result ≡ length (listed_at (images_of self.old) at).name }
        ensures bytes { IsBytes (listed_at (images_of self.old) at).name }
        ensures same { IsSameWalk self.old self.new }
        ensures index { self.new.extents ≡ self.old.extents }
    {
        let node = self.met[at];
        self.pass.payload(&list.nodes, node, 1) as usize
    }

    // A word of its name.
    fn name_word_at(&mut self, list: &ImageList, at: usize, word: usize) -> u64
        requires list { self.old.walker.table ≡ list.now }
        requires met { at < length (images_of self.old) }
        requires word { 8 * word < length (listed_at (images_of self.old) at).name }
        ensures word { result ≡ u64_in (listed_at (images_of self.old) at).name (8 * word) }
        ensures same { IsSameWalk self.old self.new }
        ensures index { self.new.extents ≡ self.old.extents }
    {
        let node = self.met[at];
        self.pass.payload(&list.nodes, node, 2 + word as u32)
    }
}

impl Images for Walk<'_> {
    ghost use Rattle.std.specs.Prelude.{◌≡◌};
    ghost use Rattle.std.proofs.Common.{refl, ◌∙◌};
    ghost use Rattle.plcr_imagelist.specs.Walk.{images_of, IsSameWalk};
    ghost use Rattle.plcr_imagelist.specs.Lending.{lent_hold, walked_extents, walked_list};
    ghost use Rattle.plcr_imagelist.specs.inner.SameWalk.{walk_itself, walk_again};

    ghost images = { λ w. images_of (lent_hold w).now };

    ghost extents = { λ w. walked_extents w };

    ghost follows = { λ x y. ((lent_hold y).ghost_name ≡ (lent_hold x).ghost_name)
        × (walked_list y ≡ walked_list x) × IsSameWalk (lent_hold x).now (lent_hold y).now };

    fn count(&self) -> usize {
        self.hold.count()
    }

    fn header(&mut self, i: usize) -> u64 {
        self.hold.header_at(self.list, i)
    }

    fn name_len(&mut self, i: usize) -> usize {
        self.hold.name_len_at(self.list, i)
    }

    fn name_word(&mut self, i: usize, j: usize) -> u64 {
        self.hold.name_word_at(self.list, i, j)
    }

    fn index(&mut self, memory: &Memory, arch: Arch) {
        self.hold.index(self.list, memory, arch);
        self.indexed = true;
    }

    fn locate(&mut self, address: u64) -> Option<usize> {
        if self.indexed {
            self.hold.place_of(address)
        } else {
            None
        }
    }

    ghost follows_itself = { λ x. (refl, refl, walk_itself x.hold.now) };

    ghost follows_on = { λ x y z p q.
        (q.0 ∙ p.0, q.1 ∙ p.1, walk_again x.hold.now y.hold.now z.hold.now p.2 q.2) };
}
