ghost use Rattle.std.specs.Prelude.{◌≡◌};
ghost use Rattle.plcr_macho.specs.inner.Keeping.{first_kept, first_parts, nothing};

use crate::image::Part;

/// What a segment says of itself (loader.h).
#[derive(Clone, Copy)]
pub struct Segment {
    pub vmaddr: u64,
    pub vmsize: u64,
    pub fileoff: u64,
    pub sections: u32,
}

/// Where the sections `__unwind_info` and `__eh_frame` say that they lie.
#[derive(Clone, Copy)]
pub struct Parts {
    pub unwind: Option<Part>,
    pub eh_frame: Option<Part>,
}

/// The segment `__TEXT`.
#[derive(Clone, Copy)]
pub struct Text {
    pub segment: Segment,
    pub parts: Parts,
}

/// What LC_SYMTAB says.
#[derive(Clone, Copy)]
pub struct Tables {
    pub symoff: u32,
    pub nsyms: u32,
    pub stroff: u32,
    pub strsize: u32,
}

/// What is kept of the load commands: the first of each kind.
#[derive(Clone, Copy)]
pub struct Kept {
    pub text: Option<Text>,
    pub linkedit: Option<Segment>,
    pub symtab: Option<Tables>,
    pub uuid: Option<[u8; 16]>,
}

impl Parts {
    /// The first of each, where there is one.
    #[tactic(auto, unfolding(crate::specs::inner::Keeping::first_parts))]
    pub fn or(self, later: Parts) -> Parts
        ensures { result ≡ first_parts self later }
    {
        Parts {
            unwind: self.unwind.or(later.unwind),
            eh_frame: self.eh_frame.or(later.eh_frame),
        }
    }
}

impl Kept {
    /// Nothing is kept.
    pub fn nothing() -> Kept
        ensures { result ≡ nothing }
    {
        Kept {
            text: None,
            linkedit: None,
            symtab: None,
            uuid: None,
        }
    }

    /// The first of each kind, where there is one.
    #[tactic(auto, unfolding(crate::specs::inner::Keeping::first_kept))]
    pub fn or(self, later: Kept) -> Kept
        ensures { result ≡ first_kept self later }
    {
        Kept {
            text: self.text.or(later.text),
            linkedit: self.linkedit.or(later.linkedit),
            symtab: self.symtab.or(later.symtab),
            uuid: self.uuid.or(later.uuid),
        }
    }
}
