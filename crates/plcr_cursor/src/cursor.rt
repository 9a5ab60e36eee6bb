ghost use Rattle.std.specs.Prelude.{◌≡◌, ◌≤◌, [], List, IsSome, IfNone};
ghost use Rattle.plcr_memory.specs.Regions.{Contents};
ghost use Rattle.plcr_macho.specs.Images.{Listed};
ghost use Rattle.plcr_regs.specs.Frames.{register_at};
ghost use Rattle.plcr_regs.specs.Places.{pc_place};
ghost use Rattle.plcr_cursor.specs.Frames.{frames_of, lookup_of, number_of};
ghost use Rattle.plcr_cursor.specs.Walks.{Gives, IsIndex, arch_of, coming, given_last, located_last, start};

use crate::asked::{Asked, Plain};
use crate::given::Reader;
use crate::known::Known;
use crate::limits::MOST_FRAMES;
use crate::located::Located;
use crate::readers::locate_over;
use crate::turning::Turning;
use plcr_macho::Images;
use plcr_memory::Memory;
use plcr_regs::{Frame, Registers};
use std::marker::Model;

/// The frames of a thread, one after the other, the one where it was stopped first.
#[derive(Drop)]
pub struct Cursor {
    // The frame given last; before the first the one that comes first.
    last: Turning,
    // What told it.
    by: Reader,
    given: bool,
    // How many frames may still be given.
    left: usize,
}

impl Model for Cursor {
    ghost use Rattle.std.specs.Prelude.{IsSome};
    ghost use Rattle.plcr_regs.specs.Frames.{frame_pc};
    ghost use Rattle.plcr_cursor.specs.Walks.{Walk};
    ghost use Rattle.plcr_cursor.specs.inner.Answering.{given_as};

    ghost Value = { Walk };

    ghost view = { λ c. record { last = given_as c.last c.by; given = c.given; left = c.left } };

    ghost invariant = { λ c. IsSome (frame_pc c.last) };
}

impl Cursor {
    /// A walk over the frames of a thread in this state, under which so many low bits of an address
    /// of code count.
    #[tactic(auto, unfolding(crate::specs::Frames::frames_of))]
    #[inline(always)]
    pub fn new(state: &Registers, bits: u8) -> Cursor
        requires known { IsSome (register_at state.now (pc_place state.now.arch)) }
        requires bits { (32 ≤ bits) × (bits ≤ 64) }
        ensures start { result ≡ start state.now bits }
        ensures frames { (memory : Contents) (images : List Listed) →
            coming memory images result ≡ frames_of memory images state.now bits }
    {
        let frame = Frame {
            registers: *state,
            exact: true,
            bits,
        };
        Cursor {
            last: Turning::at(&frame),
            by: Reader::ThreadState,
            given: false,
            left: MOST_FRAMES,
        }
    }

    // The image that has the address by which the function of the frame given last is looked up.
    fn over<A: Asked, I: Images>(&self, asked: &mut A, images: &mut I) -> Option<Located>
        requires index { IsIndex (A.memory asked.old) (arch_of self.now) (I.images images.old)
            (I.extents images.old) }
        ensures located { result ≡ located_last (A.memory asked.old) (I.images images.old)
            self.now }
        ensures memory { A.memory asked.new ≡ A.memory asked.old }
        ensures same { I.images images.new ≡ I.images images.old }
        ensures index { I.extents images.new ≡ I.extents images.old }
        ensures follows { I.follows images.old images.new }
    {
        if self.given {
            locate_over(asked, images, self.last.frame())
        } else {
            None
        }
    }

    // The pc of the next frame, where this is the image of the one given last.
    fn advance<A: Asked>(&mut self, asked: &mut A, over: &Option<Located>) -> Option<u64>
        requires { (images : List Listed)
            × (over.now ≡ located_last (A.memory asked.old) images self.old) }
        ensures gives { (images : List Listed) →
            over.now ≡ located_last (A.memory asked.old) images self.old →
            Gives (coming (A.memory asked.old) images self.old)
            (coming (A.memory asked.old) images self.new) (given_last self.old)
            (given_last self.new) result }
        ensures ended { IfNone result ((memory : Contents) (images : List Listed) →
            coming memory images self.new ≡ []) }
        ensures arch { arch_of self.new ≡ arch_of self.old }
        ensures memory { A.memory asked.new ≡ A.memory asked.old }
    {
        if self.left == 0 {
            return None;
        }
        if !self.given {
            self.given = true;
            self.left -= 1;
            return self.last.frame().pc();
        }
        let Some(by) = self.last.turn(asked, over) else {
            self.left = 0;
            return None;
        };
        self.by = by;
        self.left -= 1;
        self.last.frame().pc()
    }

    /// The pc of the next frame, without signature. None after the last, and from then on whatever
    /// it is called with. The images have to be indexed for this memory and the thread's
    /// architecture.
    pub fn next<I: Images>(&mut self, memory: &Memory, images: &mut I) -> Option<u64>
        requires index { IsIndex memory.now (arch_of self.old) (I.images images.old)
            (I.extents images.old) }
        ensures gives { Gives (coming memory.now (I.images images.old) self.old)
            (coming memory.now (I.images images.old) self.new) (given_last self.old)
            (given_last self.new) result }
        ensures ended { IfNone result ((memory : Contents) (images : List Listed) →
            coming memory images self.new ≡ []) }
        ensures arch { arch_of self.new ≡ arch_of self.old }
        ensures same { I.images images.new ≡ I.images images.old }
        ensures index { I.extents images.new ≡ I.extents images.old }
        ensures follows { I.follows images.old images.new }
    {
        let mut asked = Plain { memory };
        let over = self.over(&mut asked, images);
        self.advance(&mut asked, &over)
    }

    /// The image that has the address by which the function of the frame given last is looked up:
    /// the first of the list. None before the first frame, and where no image has the address.
    pub fn locate<I: Images>(&self, known: &mut Known, images: &mut I) -> Option<Located>
        requires index { IsIndex known.old (arch_of self.now) (I.images images.old)
            (I.extents images.old) }
        ensures located { result ≡ located_last known.old (I.images images.old) self.now }
        ensures memory { known.new ≡ known.old }
        ensures same { I.images images.new ≡ I.images images.old }
        ensures index { I.extents images.new ≡ I.extents images.old }
        ensures follows { I.follows images.old images.new }
    {
        self.over(known, images)
    }

    /// What `next` says, of a memory of which something may be kept, and where more of it is kept
    /// then. `over` is what `locate` gives of the frame given last, so that this is located once.
    pub fn next_over(&mut self, known: &mut Known, over: &Option<Located>) -> Option<u64>
        requires located { (images : List Listed)
            × (over.now ≡ located_last known.old images self.old) }
        ensures gives { (images : List Listed) → over.now ≡ located_last known.old images self.old →
            Gives (coming known.old images self.old) (coming known.old images self.new)
            (given_last self.old) (given_last self.new) result }
        ensures ended { IfNone result ((memory : Contents) (images : List Listed) →
            coming memory images self.new ≡ []) }
        ensures arch { arch_of self.new ≡ arch_of self.old }
        ensures memory { known.new ≡ known.old }
    {
        self.advance(known, over)
    }

    /// What `next` says, of a memory of which something may be kept.
    pub fn next_with<I: Images>(&mut self, known: &mut Known, images: &mut I) -> Option<u64>
        requires index { IsIndex known.old (arch_of self.old) (I.images images.old)
            (I.extents images.old) }
        ensures gives { Gives (coming known.old (I.images images.old) self.old)
            (coming known.old (I.images images.old) self.new) (given_last self.old)
            (given_last self.new) result }
        ensures ended { IfNone result ((memory : Contents) (images : List Listed) →
            coming memory images self.new ≡ []) }
        ensures arch { arch_of self.new ≡ arch_of self.old }
        ensures memory { known.new ≡ known.old }
        ensures same { I.images images.new ≡ I.images images.old }
        ensures index { I.extents images.new ≡ I.extents images.old }
        ensures follows { I.follows images.old images.new }
    {
        let over = self.over(known, images);
        self.advance(known, &over)
    }

    /// The address by which the function of the frame given last is looked up. None before the
    /// first.
    pub fn lookup(&self) -> Option<u64>
        ensures { result ≡ lookup_of (given_last self.now) }
    {
        if self.given {
            self.last.frame().lookup()
        } else {
            None
        }
    }

    /// The number of what told the frame given last. None before the first.
    pub fn by(&self) -> Option<u8>
        ensures { result ≡ number_of (given_last self.now) }
    {
        if self.given {
            Some(self.by.number())
        } else {
            None
        }
    }
}
