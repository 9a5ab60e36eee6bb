//! The script that is made.
ghost use Rattle.std.specs.Prelude.{◌≡◌, ◌≤◌, ◌++◌, codes, string_bytes, IfOk, OnOk};
ghost use Rattle.plcr_make.specs.declared.constants.TheConstants.{MOST_IMAGES};
ghost use Rattle.plcr_make.specs.Numbers.{joined};
ghost use Rattle.plcr_make.specs.Scripts.{sizes_line, load_line, unload_lines, report_line, script_of};

use crate::constants::{MADE_REPORT, UNLOAD_STRIDE};
use crate::images::image_address;
use plcr_machine::MOST_NODES;
use std::alloc::{AllocError, Global};
use std::fmt::Write;

/// The bytes of the script for so many images.
#[tactic(auto, unfolding(crate::specs::Scripts::script_of))]
pub fn script_bytes(alloc: Global, images: u32) -> Result<Vec<u8>, AllocError>
    requires { images ≤ MOST_IMAGES }
    ensures { IfOk result (λ bytes. bytes.items ≡ script_of images) }
{
    let mut text = String::new(alloc);
    add_sizes(&mut text)?;
    add_loads(&mut text, images)?;
    add_unloads(&mut text, images)?;
    add_report(&mut text)?;
    Ok(text.into_bytes())
}

/// Adds the line of the sizes.
fn add_sizes(text: &mut String) -> Result<(), AllocError>
    ensures { OnOk result (string_bytes text.new ≡ string_bytes text.old ++ sizes_line) }
{
    write!(text, "table {MOST_NODES} 1\n")
}

/// Adds the line of the report.
fn add_report(text: &mut String) -> Result<(), AllocError>
    ensures { OnOk result (string_bytes text.new ≡ string_bytes text.old ++ report_line) }
{
    write!(text, "report 0 {MADE_REPORT}\n")
}

/// Adds the line of each load.
fn add_loads(text: &mut String, images: u32) -> Result<(), AllocError>
    ensures { OnOk result (string_bytes text.new ≡ string_bytes text.old
        ++ joined load_line images) }
{
    for k in 0..images {
        add_load(text, k)?;
    }
    Ok(())
}

/// Adds the line of a load.
fn add_load(text: &mut String, k: u32) -> Result<(), AllocError>
    ensures { OnOk result (string_bytes text.new ≡ string_bytes text.old ++ load_line k) }
{
    let address = image_address(k);
    write!(text, "load 0x{address:x} /usr/lib/lib{k}.dylib\n")
}

/// Adds the line of each unload.
fn add_unloads(text: &mut String, images: u32) -> Result<(), AllocError>
    ensures { OnOk result (string_bytes text.new ≡ string_bytes text.old
        ++ joined unload_lines images) }
{
    for k in 0..images {
        add_unload(text, k)?;
    }
    Ok(())
}

/// Adds the line of an unload, where the stride divides the image's number.
fn add_unload(text: &mut String, k: u32) -> Result<(), AllocError>
    ensures { OnOk result (string_bytes text.new ≡ string_bytes text.old ++ unload_lines k) }
{
    if k % UNLOAD_STRIDE != 0 {
        return Ok(());
    }
    let address = image_address(k);
    write!(text, "unload 0x{address:x}\n")
}
