//! The command line.
ghost use Rattle.std.specs.Prelude.{◌≡◌, ◌≤◌, None, Some, IfSome, IfNone, length, map, string_bytes};
ghost use Rattle.plcr_base.specs.Told.{Prints};
ghost use Rattle.plcr_command.specs.Seen.{seen};
ghost use Rattle.plcr_tool.specs.Headline.{FormTellsTruly, TopTellsTruly};
ghost use Rattle.plcr_tool.specs.Past.{FormLeaves, TopLeaves};
ghost use Rattle.plcr_tool.specs.Top.{FormDoes, SideBySide, TopDoes, other_form, threads_in, usage_line};

use crate::report::report_command;
use crate::show::show_command;
use plcr_command::{Ending, MOST_SCRIPTS, print_line, status};
use plcr_imagelist::Writer;
use plcr_io::{Desk, Sink};
use plcr_maker::{images_of, make_command};
use plcr_workers::{Gate, threads_command};
use std::alloc::Global;
use std::sync::Wait;
use std::thread::Threads;

/// The command forms, as the usage line tells them.
const USAGE: &[u8] =
    b"usage: report CORE SCRIPT / show REPORT / make N CORE SCRIPT / threads CORE SCRIPT...\n";

/// Does what the words of the command line ask for, on a desk and a sink for its lines, and gives
/// the status: that of the command, or 1, behind the usage line, exactly where the words fit no
/// form. A command that runs scripts leaves the writer of its image list in `past`.
pub fn top<R: Threads + Wait + Sync, D: Desk, L: Sink, G: Gate>(
    rt: &R,
    alloc: Global,
    words: &[String],
    desk: &mut D,
    lines: &mut L,
    gate: &G,
    past: &mut Option<Writer>,
) -> u8
where
    D::Out: Send,
    requires { past.old ≡ None }
    ensures does { TopDoes (map string_bytes words.now)
        (seen (D.told desk.old) (L.written lines.old) (L.faults lines.old))
        (seen (D.told desk.new) (L.written lines.new) (L.faults lines.new)) result }
    ensures past { TopLeaves (map string_bytes words.now)
        (seen (D.told desk.old) (L.written lines.old) (L.faults lines.old))
        (seen (D.told desk.new) (L.written lines.new) (L.faults lines.new)) past.new result }
    ensures headline { TopTellsTruly (map string_bytes words.now)
        (seen (D.told desk.old) (L.written lines.old) (L.faults lines.old))
        (seen (D.told desk.new) (L.written lines.new) (L.faults lines.new)) past.new result }
    ensures mark { L.mark lines.new ≡ L.mark lines.old }
{
    match threads_words(words) {
        Some((core, scripts)) => {
            threads_command(rt, alloc, core, scripts, desk, lines, gate, past)
        }
        None => alone(alloc, words, desk, lines, past),
    }
}

/// The same for words that don't ask for scripts side by side.
fn alone<D: Desk, L: Sink>(
    alloc: Global,
    words: &[String],
    desk: &mut D,
    lines: &mut L,
    past: &mut Option<Writer>,
) -> u8
    requires { past.old ≡ None }
    ensures does { FormDoes (other_form (map string_bytes words.now))
        (seen (D.told desk.old) (L.written lines.old) (L.faults lines.old))
        (seen (D.told desk.new) (L.written lines.new) (L.faults lines.new)) result }
    ensures past { FormLeaves (other_form (map string_bytes words.now))
        (seen (D.told desk.old) (L.written lines.old) (L.faults lines.old))
        (seen (D.told desk.new) (L.written lines.new) (L.faults lines.new)) past.new result }
    ensures headline { FormTellsTruly (other_form (map string_bytes words.now))
        (seen (D.told desk.old) (L.written lines.old) (L.faults lines.old))
        (seen (D.told desk.new) (L.written lines.new) (L.faults lines.new)) past.new result }
    ensures mark { L.mark lines.new ≡ L.mark lines.old }
{
    match words {
        [word, report] => {
            if word.as_str() == "show" {
                show_command(alloc, report.as_str(), desk, lines)
            } else {
                misused(lines)
            }
        }
        [word, core, script] => {
            if word.as_str() == "report" {
                report_command(alloc, core.as_str(), script.as_str(), desk, lines, past)
            } else {
                misused(lines)
            }
        }
        [word, number, core, script] => {
            if word.as_str() == "make" {
                match images_of(number.as_str()) {
                    Some(n) => {
                        make_command(alloc, n, core.as_str(), script.as_str(), desk, lines, past)
                    }
                    None => misused(lines),
                }
            } else {
                misused(lines)
            }
        }
        _ => misused(lines),
    }
}

/// The core and the scripts of words of the form `threads CORE SCRIPT...`, which has 1 to 64
/// scripts.
fn threads_words(words: &[String]) -> Option<(&str, &[String])>
    ensures form { IfSome result (λ found. threads_in (map string_bytes words.now)
        ≡ Some (SideBySide found.0.now (map string_bytes found.1.now))) }
    ensures few { IfSome result (λ found. (1 ≤ length found.1.now)
        × (length found.1.now ≤ MOST_SCRIPTS)) }
    ensures none { IfNone result (threads_in (map string_bytes words.now) ≡ None) }
{
    match words {
        [word, core, scripts @ ..] => {
            if word.as_str() == "threads" {
                if 1 <= scripts.len() && scripts.len() <= MOST_SCRIPTS {
                    Some((core.as_str(), scripts))
                } else {
                    None
                }
            } else {
                None
            }
        }
        _ => None,
    }
}

/// Prints the usage line, and gives its status.
fn misused<L: Sink>(lines: &mut L) -> u8
    ensures status { result ≡ 1 }
    ensures printed { Prints (L.written lines.old) (L.written lines.new) usage_line
        (L.faults lines.old) (L.faults lines.new) }
    ensures later { L.faults lines.old ≤ L.faults lines.new }
    ensures mark { L.mark lines.new ≡ L.mark lines.old }
{
    print_line(lines, USAGE, b"", b"");
    status(Ending::Misused)
}
