//! The log of scripts that ran on threads: first the journal, then the other lines, script by
//! script.
ghost use Rattle.std.specs.Prelude.{◌≡◌, ◌≤◌, ◌<◌, All, length, OnOk, OnErr};
ghost use Rattle.std.specs.Io.KnownBytes.{append_known};
ghost use Rattle.plcr_base.specs.Causes.{Rose};
ghost use Rattle.plcr_base.specs.Told.{AppendsProperFront};
ghost use Rattle.plcr_script.specs.Log.{outcome_text};
ghost use Rattle.plcr_turns.specs.declared.lines.ChangeLine.{ChangeLine as JournalLine};
ghost use Rattle.plcr_workers.specs.declared.lines.PassLine.{PassLine as OtherLine};
ghost use Rattle.plcr_workers.specs.Outcomes as spec;
ghost use Rattle.plcr_workers.specs.Log.{file_in, journal_text, pass_outcome, script_text};

use crate::lines::{PassLine, PassSaid};
use plcr_command::MOST_SCRIPTS;
use plcr_io::{PutFailed, Sink};
use plcr_script::{Outcome, Script, Statement, write_outcome};
use plcr_turns::{ChangeLine, Said};

/// What a line of the journal came to.
fn outcome_of(said: Said) -> Outcome<'static>
    ensures { result ≡ spec.outcome_of said }
{
    match said {
        Said::NotImage { kind } => Outcome::NotImage { kind },
        Said::Worn { changes } => Outcome::Worn { changes },
        Said::Long { len } => Outcome::Long { len },
        Said::Full { live, held, seen } => Outcome::Full { live, held, seen },
        Said::NotLoaded => Outcome::NotLoaded,
        Said::Loaded { load } => Outcome::Loaded { load },
        Said::Unloaded { load } => Outcome::Unloaded { load },
    }
}

/// Prints the lines of the journal, in their order.
///
/// # Errors
///
/// `PutFailed` where the sink didn't take them all. A front of them was then written.
pub(crate) fn print_journal<L: Sink>(journal: &[ChangeLine], lines: &mut L) -> Result<(), PutFailed>
    requires { All (λ (l : JournalLine). l.script < MOST_SCRIPTS) journal.now }
    ensures ok { OnOk result
        (L.written lines.new ≡ append_known (L.written lines.old) (journal_text journal.now)) }
    ensures err { OnErr result (AppendsProperFront (L.written lines.old) (L.written lines.new)
        (journal_text journal.now)) }
    ensures cause { OnErr result (Rose (L.faults lines.old) (L.faults lines.new)) }
    ensures later { L.faults lines.old ≤ L.faults lines.new }
    ensures mark { L.mark lines.new ≡ L.mark lines.old }
{
    for line in journal {
        let outcome = outcome_of(line.said);
        write_outcome(Some(line.script + 1), line.wanted.line, &outcome, lines)?;
    }
    Ok(())
}

/// What a line of a pass came to.
fn outcome_of_pass<'a>(file: &'a [u8], said: PassSaid) -> Outcome<'a>
    ensures { outcome_text result ≡ outcome_text (pass_outcome file.now said) }
{
    match said {
        PassSaid::Entered => Outcome::Entered { pass: 0 },
        PassSaid::Walked { met, ended } => Outcome::Walked {
            pass: 0,
            met,
            ended,
        },
        PassSaid::Left { met, low, high } => Outcome::Left {
            pass: 0,
            met,
            low,
            high,
        },
        PassSaid::Reported {
            bytes,
            images,
            low,
            high,
        } => Outcome::Reported {
            file,
            bytes,
            images,
            low,
            high,
        },
    }
}

/// The file that a statement writes; none where it writes no file.
fn file_of(statement: &Statement) -> &[u8]
    ensures { result.now ≡ file_in statement.now }
{
    match statement {
        Statement::Report { pass: _, file } => file.as_slice(),
        _ => b"",
    }
}

/// Prints the other lines of a script, which has this number among all, from 1.
///
/// # Errors
///
/// `PutFailed` where the sink didn't take them all. A front of them was then written.
pub(crate) fn print_script<L: Sink>(
    number: u32,
    script: &Script,
    told: &[PassLine],
    lines: &mut L,
) -> Result<(), PutFailed>
    requires { All (λ (l : OtherLine). l.at < length script.now.statements) told.now }
    ensures ok { OnOk result (L.written lines.new
        ≡ append_known (L.written lines.old) (script_text number script.now told.now)) }
    ensures err { OnErr result (AppendsProperFront (L.written lines.old) (L.written lines.new)
        (script_text number script.now told.now)) }
    ensures cause { OnErr result (Rose (L.faults lines.old) (L.faults lines.new)) }
    ensures later { L.faults lines.old ≤ L.faults lines.new }
    ensures mark { L.mark lines.new ≡ L.mark lines.old }
{
    for line in told {
        let file = file_of(script.statement(line.at));
        let outcome = outcome_of_pass(file, line.said);
        write_outcome(Some(number), script.line(line.at), &outcome, lines)?;
    }
    Ok(())
}
