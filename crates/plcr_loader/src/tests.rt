use crate::{
    Field, FileBytes, LoadCommand, N_SECT, N_STAB, N_TYPE, SEG_LINKEDIT, SEG_TEXT, Source, Trouble,
    commands_lie, frame_at, load_command, mach_header_64 as header, nlist_64 as row,
    section_64 as section, segment_command_64 as segment, structures_stand,
    symtab_command as symtab, thread_group as group, uuid_command as uuid,
};
use std::test::*;

// One command 5 of 12 bytes, then one 0x19 that says 16 bytes and has 12 of them.
const FILE: [u8; 24] = [
    5, 0, 0, 0, 12, 0, 0, 0, 1, 2, 3, 4, 0x19, 0, 0, 0, 16, 0, 0, 0, 9, 9, 9, 9,
];

fn frame<S: Source>(source: &S, end: u64, at: u64) -> Result<LoadCommand, Trouble> {
    frame_at(source, end, 7, at)
}

#[test]
fn frames(rt: HostRuntime) {
    let source = FileBytes(&FILE);
    let first = LoadCommand {
        cmd: 5,
        cmdsize: 12,
    };
    let bad = Err(Trouble::Bad { index: 7 });
    let cases = [
        (24, 0, Ok(first)),
        (12, 0, Ok(first)),
        (11, 0, bad),
        (7, 0, bad),
        (27, 12, bad),
        (28, 12, Err(Trouble::Absent { place: 12 })),
        (40, 20, Err(Trouble::Absent { place: 20 })),
        (40, 8, Err(Trouble::Absent { place: 8 })),
        (32, 8, bad),
        (3, 24, bad),
    ];
    for (end, at, want) in cases {
        assert_eq!(rt; frame(&source, end, at), want, "to {end} at {at}");
    }
    let short = FileBytes(&[5, 0, 0, 0, 7, 0, 0, 0]);
    assert_eq!(rt; frame(&short, 8, 0), bad);
    commands_lie();
    structures_stand();
}

// How many bytes the fields fill that stand without a gap.
fn filled(fields: &[Field]) -> Option<usize> {
    let mut end = 0usize;
    for field in fields {
        if field.at != end {
            return None;
        }
        end = end.checked_add(field.size)?;
    }
    Some(end)
}

macro_rules! fills {
    ($structure:ident: $($field:ident)*) => {
        filled(&[$($structure::$field),*]) == Some($structure::LENGTH)
    };
}

// The fields stand in the order in which the headers declare them, without a gap, and fill their
// structure.
#[test]
fn fields_fill_their_structures(rt: HostRuntime) {
    assert!(rt; fills!(load_command: CMD CMDSIZE));
    assert!(rt; fills!(header: MAGIC CPUTYPE CPUSUBTYPE FILETYPE NCMDS SIZEOFCMDS FLAGS RESERVED));
    assert!(rt;
        fills!(segment: CMD CMDSIZE SEGNAME VMADDR VMSIZE FILEOFF FILESIZE MAXPROT INITPROT
            NSECTS FLAGS)
    );
    assert!(rt;
        fills!(section: SECTNAME SEGNAME ADDR SIZE OFFSET ALIGN RELOFF NRELOC FLAGS RESERVED1
            RESERVED2 RESERVED3)
    );
    assert!(rt; fills!(symtab: CMD CMDSIZE SYMOFF NSYMS STROFF STRSIZE));
    assert!(rt; fills!(uuid: CMD CMDSIZE UUID));
    assert!(rt; fills!(group: FLAVOR COUNT));
    assert!(rt; fills!(row: N_STRX N_TYPE N_SECT N_DESC N_VALUE));
}

#[test]
fn fields_are_read(rt: HostRuntime) {
    let bytes = [1, 2, 0, 0, 0x0f, 3, 4, 5, 6, 7, 8, 9, 10, 11, 12, 0x80];
    assert_eq!(rt; row::N_STRX.read_u32(&bytes), 0x0201);
    assert_eq!(rt; row::N_TYPE.read_u8(&bytes) & (N_STAB | N_TYPE), N_SECT);
    assert_eq!(rt; row::N_SECT.read_u8(&bytes), 3);
    assert_eq!(rt; row::N_DESC.read_u16(&bytes), 0x0504);
    assert_eq!(rt; row::N_VALUE.read_u64(&bytes), 0x800c_0b0a_0908_0706);
    let command = b"\x19\0\0\0\x48\0\0\0__TEXT\0\0\0\0\0\0\0\0\0\0";
    assert!(rt; segment::SEGNAME.is_named(command, &SEG_TEXT));
    assert!(rt; !segment::SEGNAME.is_named(command, &SEG_LINKEDIT));
    assert!(rt; !segment::SEGNAME.is_named(command, b"__TEXT"));
}
