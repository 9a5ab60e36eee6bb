//! What is made is read as it is meant, as the contracts of functions that do nothing.

ghost use Rattle.plcr_make.specs.MadeScripts.{MadeScriptsAreRead};

/// The script that is made is read, and says its loads, its unloads and its report.
pub fn made_scripts_are_read()
    ensures { MadeScriptsAreRead }
{}
