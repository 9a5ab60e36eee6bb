//! What a statement came to, and its line in the log.
ghost use Rattle.std.specs.Prelude.{◌≡◌, ◌≤◌, ◌+◌, ◌*◌, [], ◌∷◌, ◌++◌, length, codes, OnOk, OnErr};
ghost use Rattle.std.specs.Io.KnownBytes.{append_known};
ghost use Rattle.arrayvec.specs.ArrayVec.{array_vec_len};
ghost use Rattle.plcr_base.specs.Causes.{Rose};
ghost use Rattle.plcr_base.specs.Told.{AppendsProperFront};
ghost use Rattle.plcr_script.specs.declared.outcomes.TheConstants.{WORD_BYTES, END_BYTES, NUMBERS, PART_ROOM};
ghost use Rattle.plcr_script.specs.Log.{log_line, numbers, place_text, outcome_text, walk_end};

use arrayvec::ArrayVec;
use plcr_io::{PutFailed, Sink, add_bytes, add_decimal, put_all, put_parts};

/// The most bytes of an outcome's word, with the spaces around it.
const WORD_BYTES: usize = 16;

/// The most bytes of an outcome's last word, with the space before it.
const END_BYTES: usize = 8;

/// The most numbers of an outcome.
const NUMBERS: usize = 4;

/// Room for a line without a file: the numbers of a script and a line with a word, and the numbers
/// of an outcome with a last word and a newline, where each number has 20 digits at most.
const PART_ROOM: usize = 160;

/// What a statement came to.
#[derive(Clone, Copy)]
pub enum Outcome<'a> {
    /// A change is open.
    Busy,
    /// No change is open.
    Idle,
    /// There is no image at the header; the number of the fault.
    NotImage {
        kind: u8,
    },
    /// The list has so many changes behind it that it takes no more.
    Worn {
        changes: u32,
    },
    /// The image's name has this many bytes, which are too many.
    Long {
        len: usize,
    },
    /// No node is free: the images in the list, the nodes that readers hold back, and the word
    /// that tells of them.
    Full {
        live: u32,
        held: u32,
        seen: u64,
    },
    /// No image of the list has the header.
    NotLoaded,
    /// The image was loaded, with this number.
    Loaded {
        load: u32,
    },
    /// The image of the load with this number was unloaded.
    Unloaded {
        load: u32,
    },
    /// A change was begun, which takes so many steps in all.
    Begun {
        steps: u32,
    },
    /// So many steps of the open change were made so far.
    Stepped {
        made: u32,
    },
    /// The pass went in.
    Entered {
        pass: u32,
    },
    /// The pass's walk has met so many images in this hold, and whether it has ended.
    Walked {
        pass: u32,
        met: u32,
        ended: bool,
    },
    /// The pass came out, having met so many images; and the numbers of counted changes before it
    /// entered and before it left.
    Left {
        pass: u32,
        met: u32,
        low: u32,
        high: u32,
    },
    /// A report: its file, its length in bytes, the number of its images, and the numbers of
    /// counted changes before the pass entered and before it left.
    Reported {
        file: &'a [u8],
        bytes: u64,
        images: u32,
        low: u32,
        high: u32,
    },
}

/// Writes the log's line of an outcome: the number of the script, where there are several, and of
/// the line, the outcome's words, and a newline.
///
/// # Errors
///
/// `PutFailed` where the sink didn't take the whole line. A front of the line was then written.
#[tactic(auto, unfolding(crate::specs::Log::log_line))]
pub fn write_outcome<K: Sink>(
    script: Option<u32>,
    line: u32,
    outcome: &Outcome,
    sink: &mut K,
) -> Result<(), PutFailed>
    ensures ok { OnOk result
        (K.written sink.new ≡ append_known (K.written sink.old)
        (log_line script line outcome.now)) }
    ensures err { OnErr result (AppendsProperFront (K.written sink.old) (K.written sink.new)
        (log_line script line outcome.now)) }
    ensures cause { OnErr result (Rose (K.faults sink.old) (K.faults sink.new)) }
    ensures later { K.faults sink.old ≤ K.faults sink.new }
    ensures mark { K.mark sink.new ≡ K.mark sink.old }
{
    let words = words_of(outcome);
    let mut head = ArrayVec::new();
    add_place(&mut head, script, line);
    add_bytes(&mut head, words.word);
    if words.file.is_empty() {
        add_end(&mut head, &words);
        return put_all(sink, head.as_slice());
    }
    let mut tail = ArrayVec::new();
    add_end(&mut tail, &words);
    put_parts(sink, head.as_slice(), words.file, tail.as_slice())
}

/// Adds what stands behind a file: numbers, a last word and a newline.
fn add_end(text: &mut ArrayVec<u8, PART_ROOM>, words: &OutcomeWords)
    requires room { array_vec_len text.old + 21 * NUMBERS + END_BYTES + 1 ≤ PART_ROOM }
    requires short { length words.now.end.now ≤ END_BYTES }
    ensures { text.new.items ≡ text.old.items ++ numbers words.now.numbers.items
        ++ words.now.end.now ++ codes "\n" }
{
    add_numbers(text, words.numbers.as_slice());
    add_bytes(text, words.end);
    add_bytes(text, b"\n");
}

/// What stands behind the place of a line: the word of its outcome, a file, numbers, and a last
/// word.
#[derive(Drop)]
struct OutcomeWords<'a> {
    word: &'a [u8],
    file: &'a [u8],
    numbers: ArrayVec<u64, NUMBERS>,
    end: &'a [u8],
}

/// The words of an outcome.
fn words_of<'a>(outcome: &Outcome<'a>) -> OutcomeWords<'a>
    ensures text { result.word.now ++ result.file.now ++ numbers result.numbers.items
        ++ result.end.now ≡ outcome_text outcome.now }
    ensures short { length result.word.now ≤ WORD_BYTES }
    ensures short_end { length result.end.now ≤ END_BYTES }
{
    match *outcome {
        Outcome::Busy => words(b" busy", b"", &[]),
        Outcome::Idle => words(b" idle", b"", &[]),
        Outcome::NotImage { kind } => words(b" notimage", b"", &[u64::from(kind)]),
        Outcome::Worn { changes } => words(b" worn", b"", &[u64::from(changes)]),
        Outcome::Long { len } => words(b" long", b"", &[len as u64]),
        Outcome::Full { live, held, seen } => {
            words(b" full", b"", &[u64::from(live), u64::from(held), seen])
        }
        Outcome::NotLoaded => words(b" notloaded", b"", &[]),
        Outcome::Loaded { load } => words(b" load", b"", &[u64::from(load)]),
        Outcome::Unloaded { load } => words(b" unload", b"", &[u64::from(load)]),
        Outcome::Begun { steps } => words(b" begin", b"", &[u64::from(steps)]),
        Outcome::Stepped { made } => words(b" step", b"", &[u64::from(made)]),
        Outcome::Entered { pass } => words(b" enter", b"", &[u64::from(pass)]),
        Outcome::Walked { pass, met, ended } => walk_words(pass, met, ended),
        Outcome::Left {
            pass,
            met,
            low,
            high,
        } => {
            let counts = [
                u64::from(pass),
                u64::from(met),
                u64::from(low),
                u64::from(high),
            ];
            words(b" leave", b"", &counts)
        }
        Outcome::Reported {
            file,
            bytes,
            images,
            low,
            high,
        } => {
            let counts = [bytes, u64::from(images), u64::from(low), u64::from(high)];
            words(b" report ", file, &counts)
        }
    }
}

/// The words of a walk, which say at their end whether it has ended.
fn walk_words<'a>(pass: u32, met: u32, ended: bool) -> OutcomeWords<'a>
    ensures word { result.word.now ≡ codes " walk" }
    ensures file { result.file.now ≡ [] }
    ensures numbers { result.numbers.items ≡ pass ∷ met ∷ [] }
    ensures end { result.end.now ≡ walk_end ended }
{
    let counts = [u64::from(pass), u64::from(met)];
    if ended {
        words_to(b" walk", b"", &counts, b" end")
    } else {
        words_to(b" walk", b"", &counts, b" more")
    }
}

/// A word, a file behind it, and numbers behind both.
fn words<'a>(word: &'a [u8], file: &'a [u8], counts: &[u64]) -> OutcomeWords<'a>
    requires few { length counts.now ≤ NUMBERS }
    ensures word { result.word.now ≡ word.now }
    ensures file { result.file.now ≡ file.now }
    ensures numbers { result.numbers.items ≡ counts.now }
    ensures end { result.end.now ≡ [] }
{
    words_to(word, file, counts, b"")
}

/// A word, a file behind it, numbers behind both, and a last word.
fn words_to<'a>(word: &'a [u8], file: &'a [u8], counts: &[u64], end: &'a [u8]) -> OutcomeWords<'a>
    requires few { length counts.now ≤ NUMBERS }
    ensures word { result.word.now ≡ word.now }
    ensures file { result.file.now ≡ file.now }
    ensures numbers { result.numbers.items ≡ counts.now }
    ensures end { result.end.now ≡ end.now }
{
    let mut numbers = ArrayVec::new();
    match numbers.try_extend_from_slice(counts) {
        Ok(()) => OutcomeWords {
            word,
            file,
            numbers,
            end,
        },
        Err(_) => unreachable!(),
    }
}

/// Adds numbers, each behind a space.
fn add_numbers(text: &mut ArrayVec<u8, PART_ROOM>, counts: &[u64])
    requires { array_vec_len text.old + 21 * length counts.now ≤ PART_ROOM }
    ensures items { text.new.items ≡ text.old.items ++ numbers counts.now }
    ensures len { array_vec_len text.new ≤ array_vec_len text.old + 21 * length counts.now }
{
    for count in counts {
        add_bytes(text, b" ");
        add_decimal(text, *count);
    }
}

/// Adds the numbers of the script and the line.
fn add_place(text: &mut ArrayVec<u8, PART_ROOM>, script: Option<u32>, line: u32)
    requires { array_vec_len text.old + 41 ≤ PART_ROOM }
    ensures items { text.new.items ≡ text.old.items ++ place_text script line }
    ensures len { array_vec_len text.new ≤ array_vec_len text.old + 41 }
{
    if let Some(script) = script {
        add_decimal(text, u64::from(script));
        add_bytes(text, b":");
    }
    add_decimal(text, u64::from(line));
}
