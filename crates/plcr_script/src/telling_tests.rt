use super::*;
use plcr_regs::Arch;
use std::test::Fail;

#[test]
fn a_script_tells_its_statements_and_values(rt: HostRuntime) -> Result<(), Fail> {
    let text = b"# run\nreport 0 a.plcrash\n\nreport 0x3 b";
    let script = read_script(rt.alloc(), text, Mode::Single, &[])?;
    assert!(rt; script.nodes() == 1024 && script.passes() == 16 && script.len() == 2);
    assert!(rt; script.line(1) == 4 && tells(script.statement(1), 3, b"b"));
    let context = script.context(Arch::X86_64);
    assert_eq!(rt; context.signal, b"SIGABRT".as_slice());
    Ok(())
}

// Whether a statement is a report of this pass into this file.
fn tells(statement: &Statement, number: u32, name: &[u8]) -> bool {
    match statement {
        Statement::Report { pass, file } => *pass == number && file.as_slice() == name,
        _ => false,
    }
}

#[test]
fn a_script_tells_its_loads_and_sizes(rt: HostRuntime) -> Result<(), Fail> {
    let text = b"table 7 3\n\nload 0x1F a b \nunload 31\nload 5";
    let script = read_script(rt.alloc(), text, Mode::Single, &[])?;
    assert!(rt; script.nodes() == 7 && script.passes() == 3 && script.len() == 3);
    let expected = [(3, 31, b"a b ".as_slice()), (4, 31, b"-"), (5, 5, b"")];
    for (i, (line, header, name)) in expected.into_iter().enumerate() {
        if i < script.len() {
            let is = match script.statement(i) {
                Statement::Load {
                    header: found,
                    name: text,
                } => { *found == header && text.as_slice() == name }
                Statement::Unload { header: found } => *found == header && name == b"-".as_slice(),
                _ => false,
            };
            assert!(rt; is && script.line(i) == line);
        }
    }
    Ok(())
}

#[test]
fn a_script_tells_its_changes_and_passes(rt: HostRuntime) -> Result<(), Fail> {
    let text = b"begin load 0x1f a b\nstep 3\nend\nbegin unload 2\nenter 3\nwalk 3 7\nleave 3";
    let script = read_script(rt.alloc(), text, Mode::Single, &[])?;
    assert_eq!(rt; script.len(), 7);
    for i in 0..script.len() {
        let is = match script.statement(i) {
            Statement::BeginLoad { header, name } => {
                i == 0 && *header == 31 && name.as_slice() == b"a b".as_slice()
            }
            Statement::Step { most } => i == 1 && *most == 3,
            Statement::End => i == 2,
            Statement::BeginUnload { header } => i == 3 && *header == 2,
            Statement::Enter { pass } => i == 4 && *pass == 3,
            Statement::Walk { pass, most } => i == 5 && *pass == 3 && *most == 7,
            Statement::Leave { pass } => i == 6 && *pass == 3,
            _ => false,
        };
        assert!(rt; is, "{i}");
    }
    Ok(())
}

#[test]
fn the_last_value_of_a_key_counts(rt: HostRuntime) -> Result<(), Fail> {
    let text = b"set os 2\nset os 1\nset osversion 12 \nset timestamp 7\nset identifier a.b\n\
        set version \nset signal S\nset code c d\nset address 0xff\nset process p\nset pid 3\n\
        set ppid 4\nset crashed 5\nset bits 47\nset user 1\nset process a b\nunload 1";
    let script = read_script(rt.alloc(), text, Mode::Single, &[])?;
    let context = script.context(Arch::Arm64);
    assert!(rt; context.os == 1 && context.timestamp == 7 && context.address == 255);
    assert!(rt; context.pid == 3 && context.ppid == 4 && context.crashed == 5 && context.user);
    assert_eq!(rt; context.bits, 47);
    assert_eq!(rt; context.os_version, b"12 ".as_slice());
    assert_eq!(rt; context.identifier, b"a.b".as_slice());
    assert_eq!(rt; context.version, b"".as_slice());
    assert_eq!(rt; context.signal, b"S".as_slice());
    assert_eq!(rt; context.code, b"c d".as_slice());
    assert_eq!(rt; context.process, b"a b".as_slice());
    Ok(())
}
