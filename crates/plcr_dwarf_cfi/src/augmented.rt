//! Augmentation texts and augmentation data of common information entries (Linux Standard Base
//! Core, "The Common Information Entry Format").
ghost use Rattle.std.specs.Prelude.{◌≡◌, ◌+◌, ◌<◌, ◌^◌, OnOk};
ghost use Rattle.plcr_base.specs.Chains.{result_map};
ghost use Rattle.plcr_leb128.specs.Cells.{bytes_of};
ghost use Rattle.plcr_dwarf_cfi.specs.Entries.{augmentation_from, augmentation_text, is_letter, language_read, letter_at, letter_read, personality_read, plain_pointers, pointers_read};
ghost use Rattle.plcr_dwarf_cfi.specs.Lists.{listed};
ghost use Rattle.plcr_dwarf_cfi.specs.inner.Settings.{section};
ghost use Rattle.plcr_dwarf_cfi.specs.inner.Texts.{summary, summary_of, with_letter};

use crate::augmentations::*;
use crate::encodings::DW_EH_PE_omit;
use crate::entries::{Encoding, Format};
use crate::fault::CallFrameFault;
use crate::pointers::{encoding_of, number_of};
use crate::sections::{Surroundings, byte};
use plcr_leb128::Cells;

/// Augmentation data, as far as it was read.
#[derive(Clone, Copy)]
pub struct Augmentation {
    pub place: u64,
    pub signal_frame: bool,
    pub pointers: Encoding,
}

/// Whether the letters of an augmentation text are accepted, as far as they were read.
#[derive(Clone, Copy)]
pub enum TextForm {
    Empty,
    Accepted,
    Refused,
}

/// An augmentation text: whether it has letters, and the place behind it.
#[derive(Clone, Copy)]
pub struct Summary {
    pub augmented: bool,
    pub next: u64,
}

// How pointers are encoded where nothing says otherwise.
pub fn plain_pointers() -> Encoding
    ensures { result ≡ plain_pointers }
{
    Encoding {
        format: Format::Absptr,
        relative: false,
        indirect: false,
    }
}

fn is_letter(letter: u8) -> bool
    ensures { result ≡ is_letter letter }
{
    matches!(
        letter,
        POINTER_ENCODING | LANGUAGE_DATA | PERSONALITY | SIGNAL_FRAME
    )
}

impl TextForm {
    // The text with one letter more.
    fn with_letter(self, letter: u8) -> TextForm
        ensures { result ≡ with_letter self letter }
    {
        match self {
            TextForm::Empty if letter == AUGMENTED => TextForm::Accepted,
            TextForm::Accepted if is_letter(letter) => TextForm::Accepted,
            _ => TextForm::Refused,
        }
    }

    // What is kept of the text, which ends before a place.
    fn until(self, next: u64) -> Result<Summary, CallFrameFault>
        ensures { result ≡ summary_of self next }
    {
        match self {
            TextForm::Empty => Ok(Summary {
                augmented: false,
                next,
            }),
            TextForm::Accepted => Ok(Summary {
                augmented: true,
                next,
            }),
            TextForm::Refused => Err(CallFrameFault::UnknownAugmentation),
        }
    }
}

// The letter at a place and the place of the next one.
fn letter_at<C: Cells>(cells: &C, place: u64) -> Result<Option<(u8, u64)>, CallFrameFault>
    ensures letter { result ≡ letter_at (C.cells cells.now) place }
    ensures within { OnOk result (place + 1 < 2 ^ 64) }
{
    let letter = byte(cells, place)?;
    if letter == 0 {
        return Ok(None);
    }
    Ok(Some((letter, place + 1)))
}

/// The text at a place, where its letters are accepted.
#[tactic(auto, using(crate::proofs::Texts::text_start, crate::proofs::Texts::text_ends, crate::proofs::Texts::text_goes, crate::proofs::Texts::text_fails, crate::proofs::Texts::text_out))]
pub fn text_at<C: Cells>(
    cells: &C,
    around: &Surroundings<'_>,
    start: u64,
) -> Result<Summary, CallFrameFault>
    ensures { result ≡ result_map summary
        (augmentation_text (section (C.cells cells.now) around.now) start) }
{
    let mut form = TextForm::Empty;
    let mut place = start;
    for _done in 0..around.size {
        match letter_at(cells, place) {
            Ok(Some((letter, next))) => {
                form = form.with_letter(letter);
                place = next;
            }
            Ok(None) => return form.until(place + 1),
            Err(fault) => return Err(fault),
        }
    }
    Err(CallFrameFault::Truncated)
}

impl Augmentation {
    // The same with a place behind what was read.
    fn moved_to(self, place: u64) -> Augmentation
        ensures place { result.place ≡ place }
        ensures signal_frame { result.signal_frame ≡ self.signal_frame }
        ensures pointers { result.pointers ≡ self.pointers }
    {
        Augmentation { place, ..self }
    }
}

fn read_pointers<C: Cells>(
    cells: &C,
    around: &Surroundings<'_>,
    a: Augmentation,
) -> Result<Augmentation, CallFrameFault>
    ensures { result ≡ pointers_read (section (C.cells cells.now) around.now) a }
{
    let pointers = encoding_of(byte(cells, a.place)?)?;
    Ok(Augmentation {
        place: a.place + 1,
        pointers,
        ..a
    })
}

fn read_language<C: Cells>(
    cells: &C,
    around: &Surroundings<'_>,
    a: Augmentation,
) -> Result<Augmentation, CallFrameFault>
    ensures { result ≡ language_read (section (C.cells cells.now) around.now) a }
{
    let n = byte(cells, a.place)?;
    if n != DW_EH_PE_omit {
        encoding_of(n)?;
    }
    Ok(a.moved_to(a.place + 1))
}

fn read_personality<C: Cells>(
    cells: &C,
    around: &Surroundings<'_>,
    a: Augmentation,
) -> Result<Augmentation, CallFrameFault>
    ensures { result ≡ personality_read (section (C.cells cells.now) around.now) a }
{
    let n = byte(cells, a.place)?;
    if n == DW_EH_PE_omit {
        return Ok(a.moved_to(a.place + 1));
    }
    let encoding = encoding_of(n)?;
    let pointer = number_of(cells, encoding.format, a.place + 1)?;
    Ok(a.moved_to(pointer.next))
}

// What a letter tells, with what stands for it in the data.
#[tactic(auto, unfolding(crate::specs::Entries::letter_read))]
fn read_letter<C: Cells>(
    cells: &C,
    around: &Surroundings<'_>,
    letter: u8,
    a: Augmentation,
) -> Result<Augmentation, CallFrameFault>
    ensures { result ≡ letter_read (section (C.cells cells.now) around.now) letter a }
{
    match letter {
        POINTER_ENCODING => read_pointers(cells, around, a),
        LANGUAGE_DATA => read_language(cells, around, a),
        PERSONALITY => read_personality(cells, around, a),
        SIGNAL_FRAME => Ok(Augmentation {
            signal_frame: true,
            ..a
        }),
        _ => Ok(a),
    }
}

/// What the letters of the text at a place tell, with the data that stands for them.
#[tactic(auto, using(crate::proofs::Texts::letters_start, crate::proofs::Texts::letters_go, crate::proofs::Texts::letters_fail, crate::proofs::Texts::letters_end, crate::proofs::Texts::letters_cut, crate::proofs::Texts::letters_out))]
pub fn augmentation_from<C: Cells>(
    cells: &C,
    around: &Surroundings<'_>,
    text: u64,
    data_at: u64,
) -> Result<Augmentation, CallFrameFault>
    ensures { result ≡ augmentation_from (section (C.cells cells.now) around.now)
        (listed (letter_at (C.cells cells.now)) around.now.size text).items data_at }
{
    let mut place = text;
    let mut a = Augmentation {
        place: data_at,
        signal_frame: false,
        pointers: plain_pointers(),
    };
    for _done in 0..around.size {
        match letter_at(cells, place) {
            Ok(Some((letter, next))) => match read_letter(cells, around, letter, a) {
                Ok(read) => {
                    a = read;
                    place = next;
                }
                Err(fault) => return Err(fault),
            },
            Ok(None) => return Ok(a),
            Err(_) => return Ok(a),
        }
    }
    Ok(a)
}
