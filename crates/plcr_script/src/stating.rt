//! Lines of statements.
ghost use Rattle.std.specs.Prelude.{◌≡◌, ◌<◌, ◌^◌, ℕ, length, IfOk, IfSome};
ghost use Rattle.std.specs.List.{list_all};
ghost use Rattle.std.specs.Option.{option_copied};
ghost use Rattle.plcr_script.specs.declared.statements.Statement.TheVariants as statements;
ghost use Rattle.plcr_script.specs.Splits.{words};
ghost use Rattle.plcr_script.specs.Sayings as sayings;
ghost use Rattle.plcr_script.specs.Sayings.{States, load_in, unload_in, begin_in, step_in, end_in, pass_in, moving_in, walk_by, walk_in, report_by, report_in, statement_in};
ghost use Rattle.plcr_script.specs.inner.Fits.{IsFit};
ghost use Rattle.plcr_script.specs.inner.Wording.{IsStated, stated};

use crate::arguments::{image, one_word, two_words};
use crate::faults::Kind;
use crate::numerals::{long_number, small_number};
use crate::splitting::first_word;
use crate::statements::{Statement, text_of};
use plcr_io::FILE_NAME_BYTES;
use std::alloc::{AllocError, Global};

/// A statement, as it is written.
#[derive(Clone, Copy)]
pub(crate) enum Stating<'a> {
    Load { header: u64, name: &'a [u8] },
    Unload { header: u64 },
    BeginLoad { header: u64, name: &'a [u8] },
    BeginUnload { header: u64 },
    Step { most: u32 },
    End,
    Enter { pass: u32 },
    Walk { pass: u32, most: u32 },
    Leave { pass: u32 },
    Report { pass: u32, file: &'a [u8] },
}

impl<'a> Stating<'a> {
    /// The statement, which owns its text.
    pub(crate) fn own(self, alloc: Global) -> Result<Statement, AllocError>
        ensures { IfOk result (λ statement. statement ≡ stated self.entry) }
    {
        Ok(match self {
            Stating::Load { header, name } => Statement::Load {
                header,
                name: text_of(alloc, name)?,
            },
            Stating::Unload { header } => Statement::Unload { header },
            Stating::BeginLoad { header, name } => Statement::BeginLoad {
                header,
                name: text_of(alloc, name)?,
            },
            Stating::BeginUnload { header } => Statement::BeginUnload { header },
            Stating::Step { most } => Statement::Step { most },
            Stating::End => Statement::End,
            Stating::Enter { pass } => Statement::Enter { pass },
            Stating::Walk { pass, most } => Statement::Walk { pass, most },
            Stating::Leave { pass } => Statement::Leave { pass },
            Stating::Report { pass, file } => Statement::Report {
                pass,
                file: text_of(alloc, file)?,
            },
        })
    }
}

/// A statement, by the first word of its line and what stands after it.
#[tactic(auto, unfolding(crate::specs::Sayings::statement_in))]
pub(crate) fn statement<'a>(
    passes: u32,
    word: &[u8],
    arguments: Option<&'a [u8]>,
) -> Result<Stating<'a>, Kind>
    requires { IfSome arguments (λ text. length text.now < 2 ^ 32) }
    ensures worded { IsStated result
        (statement_in passes word.now (option_copied arguments.entry)) }
    ensures fits { IfOk result (λ stating. IsFit passes (States (stated stating))) }
{
    if word == b"load".as_slice() {
        return load(arguments);
    }
    if word == b"unload".as_slice() {
        return unload(arguments);
    }
    if word == b"begin".as_slice() {
        return begin(arguments);
    }
    if word == b"step".as_slice() {
        return step(arguments);
    }
    if word == b"end".as_slice() {
        return end(arguments);
    }
    if word == b"enter".as_slice() {
        return enter(passes, arguments);
    }
    if word == b"walk".as_slice() {
        return walk(passes, arguments);
    }
    if word == b"leave".as_slice() {
        return leave(passes, arguments);
    }
    if word == b"report".as_slice() {
        return report(passes, arguments);
    }
    Err(Kind::BadWord)
}

/// `load`, by what stands after this word.
#[tactic(auto, unfolding(crate::specs::Sayings::load_in))]
fn load<'a>(arguments: Option<&'a [u8]>) -> Result<Stating<'a>, Kind>
    requires { IfSome arguments (λ text. length text.now < 2 ^ 32) }
    ensures worded { IsStated result (load_in statements.Load (option_copied arguments.entry)) }
    ensures fits { IfOk result (λ stating. (count : ℕ) → IsFit count (States (stated stating))) }
{
    match image(arguments) {
        Err(kind) => Err(kind),
        Ok((header, name)) => Ok(Stating::Load { header, name }),
    }
}

/// `unload`, by what stands after this word.
#[tactic(auto, unfolding(crate::specs::Sayings::unload_in))]
fn unload<'a>(arguments: Option<&'a [u8]>) -> Result<Stating<'a>, Kind>
    ensures worded { IsStated result
        (unload_in statements.Unload (words (option_copied arguments.entry))) }
    ensures fits { IfOk result (λ stating. (count : ℕ) → IsFit count (States (stated stating))) }
{
    match one_word(arguments) {
        Err(kind) => Err(kind),
        Ok(word) => match long_number(word) {
            None => Err(Kind::BadNumber),
            Some(header) => Ok(Stating::Unload { header }),
        },
    }
}

/// `begin`, by what stands after this word.
#[tactic(auto, unfolding(crate::specs::Sayings::begin_in))]
fn begin<'a>(arguments: Option<&'a [u8]>) -> Result<Stating<'a>, Kind>
    requires { IfSome arguments (λ text. length text.now < 2 ^ 32) }
    ensures worded { IsStated result (begin_in (option_copied arguments.entry)) }
    ensures fits { IfOk result (λ stating. (count : ℕ) → IsFit count (States (stated stating))) }
{
    let Some(arguments) = arguments else {
        return Err(Kind::TooFew);
    };
    let (word, others) = first_word(arguments);
    if word == b"load".as_slice() {
        return begin_load(others);
    }
    if word == b"unload".as_slice() {
        return begin_unload(others);
    }
    Err(Kind::BadWord)
}

/// `begin load`, by what stands after these words.
#[tactic(auto, unfolding(crate::specs::Sayings::load_in))]
fn begin_load<'a>(arguments: Option<&'a [u8]>) -> Result<Stating<'a>, Kind>
    requires { IfSome arguments (λ text. length text.now < 2 ^ 32) }
    ensures worded { IsStated result
        (load_in statements.BeginLoad (option_copied arguments.entry)) }
    ensures fits { IfOk result (λ stating. (count : ℕ) → IsFit count (States (stated stating))) }
{
    match image(arguments) {
        Err(kind) => Err(kind),
        Ok((header, name)) => Ok(Stating::BeginLoad { header, name }),
    }
}

/// `begin unload`, by what stands after these words.
#[tactic(auto, unfolding(crate::specs::Sayings::unload_in))]
fn begin_unload<'a>(arguments: Option<&'a [u8]>) -> Result<Stating<'a>, Kind>
    ensures worded { IsStated result
        (unload_in statements.BeginUnload (words (option_copied arguments.entry))) }
    ensures fits { IfOk result (λ stating. (count : ℕ) → IsFit count (States (stated stating))) }
{
    match one_word(arguments) {
        Err(kind) => Err(kind),
        Ok(word) => match long_number(word) {
            None => Err(Kind::BadNumber),
            Some(header) => Ok(Stating::BeginUnload { header }),
        },
    }
}

/// `step`, by what stands after this word.
#[tactic(auto, unfolding(crate::specs::Sayings::step_in))]
fn step<'a>(arguments: Option<&'a [u8]>) -> Result<Stating<'a>, Kind>
    ensures worded { IsStated result (step_in (words (option_copied arguments.entry))) }
    ensures fits { IfOk result (λ stating. (count : ℕ) → IsFit count (States (stated stating))) }
{
    match one_word(arguments) {
        Err(kind) => Err(kind),
        Ok(word) => match small_number(word) {
            None => Err(Kind::BadNumber),
            Some(most) => Ok(Stating::Step { most }),
        },
    }
}

/// `end`, by what stands after this word.
#[tactic(auto, unfolding(crate::specs::Sayings::end_in))]
fn end<'a>(arguments: Option<&'a [u8]>) -> Result<Stating<'a>, Kind>
    ensures worded { IsStated result (end_in (words (option_copied arguments.entry))) }
    ensures fits { IfOk result (λ stating. (count : ℕ) → IsFit count (States (stated stating))) }
{
    if arguments.is_some() {
        return Err(Kind::TooMany);
    }
    Ok(Stating::End)
}

/// `enter`, by what stands after this word.
#[tactic(auto, unfolding(crate::specs::Sayings::moving_in))]
fn enter<'a>(passes: u32, arguments: Option<&'a [u8]>) -> Result<Stating<'a>, Kind>
    ensures worded { IsStated result
        (moving_in passes statements.Enter (words (option_copied arguments.entry))) }
    ensures fits { IfOk result (λ stating. IsFit passes (States (stated stating))) }
{
    match only_pass(passes, arguments) {
        Err(kind) => Err(kind),
        Ok(pass) => Ok(Stating::Enter { pass }),
    }
}

/// `leave`, by what stands after this word.
#[tactic(auto, unfolding(crate::specs::Sayings::moving_in))]
fn leave<'a>(passes: u32, arguments: Option<&'a [u8]>) -> Result<Stating<'a>, Kind>
    ensures worded { IsStated result
        (moving_in passes statements.Leave (words (option_copied arguments.entry))) }
    ensures fits { IfOk result (λ stating. IsFit passes (States (stated stating))) }
{
    match only_pass(passes, arguments) {
        Err(kind) => Err(kind),
        Ok(pass) => Ok(Stating::Leave { pass }),
    }
}

/// The pass that the one word there is names.
fn only_pass(passes: u32, arguments: Option<&[u8]>) -> Result<u32, Kind>
    ensures read { result ≡ pass_in passes (words (option_copied arguments.entry)) }
    ensures within { IfOk result (λ pass. pass < passes) }
{
    match one_word(arguments) {
        Err(kind) => Err(kind),
        Ok(word) => match small_number(word) {
            None => Err(Kind::BadNumber),
            Some(pass) => existing(passes, pass),
        },
    }
}

/// The pass, which is one of so many.
fn existing(passes: u32, pass: u32) -> Result<u32, Kind>
    ensures read { result ≡ sayings.existing passes pass }
    ensures within { IfOk result (λ found. found < passes) }
{
    if pass < passes {
        Ok(pass)
    } else {
        Err(Kind::NoSuchPass)
    }
}

/// `walk`, by what stands after this word.
#[tactic(auto, unfolding(crate::specs::Sayings::walk_in))]
fn walk<'a>(passes: u32, arguments: Option<&'a [u8]>) -> Result<Stating<'a>, Kind>
    ensures worded { IsStated result (walk_in passes (words (option_copied arguments.entry))) }
    ensures fits { IfOk result (λ stating. IsFit passes (States (stated stating))) }
{
    match two_words(arguments) {
        Err(kind) => Err(kind),
        Ok((pass, most)) => walk_of(passes, pass, most),
    }
}

/// The walk of a pass by at most so many images, by their words.
fn walk_of<'a>(passes: u32, pass: &[u8], most: &[u8]) -> Result<Stating<'a>, Kind>
    ensures worded { IsStated result (walk_by passes pass.now most.now) }
    ensures fits { IfOk result (λ stating. IsFit passes (States (stated stating))) }
{
    let Some(pass) = small_number(pass) else {
        return Err(Kind::BadNumber);
    };
    let Some(most) = small_number(most) else {
        return Err(Kind::BadNumber);
    };
    match existing(passes, pass) {
        Err(kind) => Err(kind),
        Ok(pass) => Ok(Stating::Walk { pass, most }),
    }
}

/// `report`, by what stands after this word.
#[tactic(auto, unfolding(crate::specs::Sayings::report_in))]
fn report<'a>(passes: u32, arguments: Option<&'a [u8]>) -> Result<Stating<'a>, Kind>
    ensures worded { IsStated result (report_in passes (words (option_copied arguments.entry))) }
    ensures fits { IfOk result (λ stating. IsFit passes (States (stated stating))) }
{
    match two_words(arguments) {
        Err(kind) => Err(kind),
        Ok((pass, file)) => report_of(passes, pass, file),
    }
}

/// The report of a pass into a file, by their words.
fn report_of<'a>(passes: u32, pass: &[u8], file: &'a [u8]) -> Result<Stating<'a>, Kind>
    ensures worded { IsStated result (report_by passes pass.now file.now) }
    ensures fits { IfOk result (λ stating. IsFit passes (States (stated stating))) }
{
    let Some(pass) = small_number(pass) else {
        return Err(Kind::BadNumber);
    };
    if !is_file_name(file) {
        return Err(Kind::BadWord);
    }
    match existing(passes, pass) {
        Err(kind) => Err(kind),
        Ok(pass) => Ok(Stating::Report { pass, file }),
    }
}

/// Whether a word names a file.
fn is_file_name(word: &[u8]) -> bool
    ensures { result ≡ sayings.is_file_name word.now }
{
    !word.is_empty() && word.len() <= FILE_NAME_BYTES && is_visible(word)
}

/// Whether all bytes are visible characters of ASCII.
fn is_visible(word: &[u8]) -> bool
    ensures { result ≡ list_all sayings.is_visible word.now }
{
    word.iter().all(|b| *b >= 0x21 && *b <= 0x7e)
}
