ghost use Rattle.std.specs.Prelude.{◌<◌};

use crate::fixtures::{desk_of, image_core};
use crate::report::report_command;
use plcr_io::{MemDesk, MemOut};
use std::alloc::Global;
use std::test::Fail;

/// Runs a script on a core of so many images and threads, and gives the desk and the lines.
fn run(alloc: Global, core: Vec<u8>, script: &[u8]) -> Result<(MemDesk, MemOut), Fail> {
    let mut desk = desk_of(alloc, core, script, 300_000, Vec::new(alloc))?;
    let mut lines = MemOut::new(alloc, 4_000_000, 300, Vec::new(alloc))?;
    let mut past = None;
    let status = report_command(alloc, "c", "s", &mut desk, &mut lines, &mut past);
    if status != 0 || past.is_none() {
        return Err("not done".into());
    }
    Ok((desk, lines))
}

/// The line of a load of an image.
fn load(alloc: Global, word: &str, k: u64, name: &str) -> Result<String, Fail>
    requires { k < 400 }
{
    let header = 0x1_0000_0000 + 0x4000 * k;
    Ok(format!(in alloc; "{word} {header} {name}\n")?)
}

// Each of twelve threads has 208 bytes, and each image with a name of 75 bytes has 118.
#[test]
fn three_hundred_images(rt: HostRuntime) -> Result<(), Fail> {
    let alloc = rt.alloc();
    let name = "/System/Library/PrivateFrameworks/Some.framework/Versions/A/SomeFrameworks1";
    assert_eq!(rt; name.len(), 75);
    let mut script = Vec::new(alloc);
    for k in 0..304 {
        let word = if k == 300 { "begin load" } else { "load" };
        script.extend_from_slice(load(alloc, word, k, name)?.as_bytes())?;
        if k == 300 {
            script.extend_from_slice(b"end\n")?;
        }
    }
    script.extend_from_slice(b"report 0 a\n")?;
    let core = image_core(alloc, 304, 12)?;
    let (desk, lines) = run(alloc, core, script.as_slice())?;
    let end = b"\n301 begin 15\n302 load 301\n303 load 302\n304 load 303\n305 load 304\n\
        306 report a 38431 304 304 304\n";
    assert!(rt; lines.bytes().ends_with(end));
    assert_eq!(rt; desk.file("a").map(|file| file.len()), Some(38_431));
    Ok(())
}

/// Statements of every kind but `report`, with a pass that is out: three loads and two unloads.
fn add_statements(alloc: Global, script: &mut Vec<u8>, i: u32) -> Result<(), Fail> {
    let one = 0x1_0000_0000 + 0x4000 * u64::from(i % 8);
    let other = 0x1_0000_0000 + 0x4000 * u64::from((i % 8 + 3) % 8);
    let pass = i % 1024;
    let loads = format!(in alloc; "load {one} n\nload {other} m\nbegin load {other} n\nstep 2\n")?;
    let walk = format!(in alloc; "enter {pass}\nwalk {pass} 1\nend\n")?;
    let begun = format!(in alloc; "begin unload {one}\nstep 1\nend\n")?;
    let unload = format!(in alloc; "unload {other}\nleave {pass}\n")?;
    script.extend_from_slice(loads.as_bytes())?;
    script.extend_from_slice(walk.as_bytes())?;
    script.extend_from_slice(begun.as_bytes())?;
    script.extend_from_slice(unload.as_bytes())?;
    Ok(())
}

// The list is full after 4,094 rounds. From then on the images that a round unloads make room for
// two loads of the next: the third is refused, and its steps find no change open.
#[test]
fn a_hundred_thousand_statements(rt: HostRuntime) -> Result<(), Fail> {
    let alloc = rt.alloc();
    let mut script = b"table 4096 1024\n".to_vec(alloc)?;
    for i in 0..8_333 {
        add_statements(alloc, &mut script, i)?;
    }
    script.extend_from_slice(b"enter 1\nwalk 1 0\nreport 5 a\nreport 1 b\n")?;
    let core = image_core(alloc, 8, 1)?;
    let (desk, lines) = run(alloc, core, script.as_slice())?;
    let ends = lines.bytes().iter().filter(|byte| **byte == b'\n').count();
    assert_eq!(rt; ends, 100_000);
    assert_eq!(rt; lines.bytes().len(), 1_768_394);
    let end = b"\n99997 leave 140 1 37424 37426\n99998 enter 1\n99999 walk 1 0 more\n\
        100000 report a 180407 4094 37426 37426\n100001 report b 180407 4094 37426 37426\n";
    assert!(rt; lines.bytes().ends_with(end));
    assert_eq!(rt; desk.file("a").map(|file| file.len()), Some(180_407));
    assert_eq!(rt; desk.file("b").map(|file| file.len()), Some(180_407));
    Ok(())
}
