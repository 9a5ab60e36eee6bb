//! What is looked up as a script is read: files by their names, and which passes are in.
ghost use Rattle.std.specs.Prelude.{◌≡◌, ℕ, ◌<◌, [], ◌++◌, List, Bool, false, ◌||◌, not, length, slice_index_or, slice_set, option_to_list, IfOk, OnOk};
ghost use Rattle.std.specs.Str.{bytes_eq};
ghost use Rattle.plcr_script.specs.Reading.{file_of, files_of, written_by};
ghost use Rattle.plcr_machine.specs.declared.limits.TheConstants.{MOST_PASSES};
ghost use Rattle.plcr_script.specs.inner.Names.{has, IsIndex, AreInside};

use crate::scripts::Script;
use crate::statements::{NumberedStatement, Statement};
use plcr_machine::MOST_PASSES;
use std::alloc::{AllocError, Global};
use std::collections::BTreeSet;

/// What is looked up behind the lines so far: the files that the scripts before and the statements
/// write, and which passes are in, by their numbers.
#[derive(Drop)]
pub(crate) struct Index<'a> {
    names: BTreeSet<&'a [u8]>,
    inside: Vec<bool>,
}

impl<'a> Index<'a> {
    /// The files of the scripts before, and all passes out.
    pub(crate) fn new(alloc: Global, before: &'a [Script]) -> Result<Index<'a>, AllocError>
        ensures names { IfOk result (λ index. IsIndex index.names (written_by before.now)) }
        ensures inside { IfOk result (λ index. AreInside index.inside.items []) }
    {
        Ok(Index {
            names: names_of(alloc, before)?,
            inside: vec![in alloc; false; MOST_PASSES as usize]?,
        })
    }

    /// Whether a pass is in.
    pub(crate) fn is_in(&self, pass: u32) -> bool
        requires { pass < length self.now.inside.items }
        ensures { result ≡ slice_index_or self.now.inside.items pass false }
    {
        self.inside[pass as usize]
    }

    /// Puts a pass in or out, and tells whether it was in.
    pub(crate) fn replace(&mut self, pass: u32, inside: bool) -> bool
        requires { pass < length self.old.inside.items }
        ensures was { result ≡ slice_index_or self.old.inside.items pass false }
        ensures inside { self.new.inside.items ≡ slice_set self.old.inside.items pass inside }
        ensures names { self.new.names ≡ self.old.names }
    {
        let was = self.inside[pass as usize];
        self.inside[pass as usize] = inside;
        was
    }

    /// Adds a name, and tells whether it is new.
    pub(crate) fn add(&mut self, name: &'a [u8]) -> Result<bool, AllocError>
        ensures fresh { IfOk result (λ fresh. fresh ≡ not (has self.old.names name.now)) }
        ensures added { OnOk result ((q : List ℕ) →
            has self.new.names q ≡ (bytes_eq name.now q || has self.old.names q)) }
        ensures inside { self.new.inside ≡ self.old.inside }
    {
        add_name(&mut self.names, name)
    }
}

/// The files that scripts write.
fn names_of<'a>(alloc: Global, scripts: &'a [Script]) -> Result<BTreeSet<&'a [u8]>, AllocError>
    ensures { IfOk result (λ names. IsIndex names (written_by scripts.now)) }
{
    let mut names = BTreeSet::new(alloc);
    for script in scripts {
        add_names(&mut names, script.statements())?;
    }
    Ok(names)
}

/// Adds the files that statements write to a set.
fn add_names<'a>(
    names: &mut BTreeSet<&'a [u8]>,
    statements: &'a [NumberedStatement],
) -> Result<(), AllocError>
    ensures { OnOk result ((files : List (List ℕ)) → IsIndex names.old files →
        IsIndex names.new (files ++ files_of statements.now)) }
{
    for numbered in statements {
        add_file(names, &numbered.statement)?;
    }
    Ok(())
}

/// Adds the file that a statement writes, if it writes one.
fn add_file<'a>(names: &mut BTreeSet<&'a [u8]>, statement: &'a Statement) -> Result<(), AllocError>
    ensures { OnOk result ((files : List (List ℕ)) → IsIndex names.old files →
        IsIndex names.new (files ++ option_to_list (file_of statement.now))) }
{
    if let Some(file) = statement.file() {
        add_name(names, file)?;
    }
    Ok(())
}

/// Adds a name to a set, and tells whether it is new.
fn add_name<'a>(names: &mut BTreeSet<&'a [u8]>, name: &'a [u8]) -> Result<bool, AllocError>
    ensures fresh { IfOk result (λ fresh. fresh ≡ not (has names.old name.now)) }
    ensures added { OnOk result ((q : List ℕ) →
        has names.new q ≡ (bytes_eq name.now q || has names.old q)) }
{
    Ok(names.insert(name)?)
}
