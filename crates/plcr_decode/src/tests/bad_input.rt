//! Files that aren't reports, and what is passed over.
use super::{FILE, TEXT, shown};
use crate::{DecodeFault, decode};
use plcr_report::Kind;
use std::alloc::Global;
use std::test::Fail;

/// 2^64 - 1 as a varint.
const MOST: &[u8] = b"\xff\xff\xff\xff\xff\xff\xff\xff\xff\x01";

/// A varint of more than 64 bits.
const TOO_WIDE: &[u8] = b"\xff\xff\xff\xff\xff\xff\xff\xff\xff\x02";

/// A file with these parts behind its head.
fn file(alloc: Global, parts: &[&[u8]]) -> Result<Vec<u8>, Fail> {
    let mut bytes = Vec::from_slice(alloc, b"plcrash\x01")?;
    for part in parts {
        bytes.extend_from_slice(part)?;
    }
    Ok(bytes)
}

#[test]
fn faults_are_told_with_their_places(rt: HostRuntime) -> Result<(), Fail> {
    let alloc = rt.alloc();
    let rows = [
        (b"plcra".as_slice(), DecodeFault::Magic),
        (b"plcrash".as_slice(), DecodeFault::Truncated { at: 7 }),
        (b"plcrash\x02".as_slice(), DecodeFault::Version { found: 2 }),
        (
            b"plcrash\x01\x78\x05\x08\x00".as_slice(),
            DecodeFault::WrongWire { field: 1, at: 10 },
        ),
        (
            b"plcrash\x01\x1a\x02\x12\x05\x78\x05".as_slice(),
            DecodeFault::Truncated { at: 12 },
        ),
        (
            b"plcrash\x01\x0a\x00\x12\x00\x1a\x00\x32\x00".as_slice(),
            DecodeFault::Missing {
                message: Kind::System,
                field: 1,
            },
        ),
    ];
    for (bytes, fault) in rows {
        assert_eq!(rt; decode(alloc, bytes).err(), Some(fault));
    }
    Ok(())
}

#[test]
fn tags_without_a_field_or_a_wire_type_are_refused(rt: HostRuntime) -> Result<(), Fail> {
    let alloc = rt.alloc();
    // Groups and the wire types 6 and 7, of a known and of an unknown field; field 0; field 2^29.
    let rows = [
        b"\x0b\x00".as_slice(),
        b"\x0c\x00",
        b"\x0e\x00",
        b"\x0f\x00",
        b"\x7b\x00",
        b"\x7c\x00",
        b"\x7e\x00",
        b"\x7f\x00",
        b"\x00\x00",
        b"\x01\x00",
        b"\x02\x00",
        b"\x05\x00",
        b"\x80\x80\x80\x80\x10\x00",
    ];
    for row in rows {
        let bytes = file(alloc, &[row])?;
        assert_eq!(rt;
            decode(alloc, bytes.as_slice()).err(),
            Some(DecodeFault::BadTag { at: 8 })
        );
    }

    // In a frame of a thread; the tag behind it is no better and isn't reached.
    let bytes = file(alloc, &[b"\x1a\x03\x12\x01\x0b\x0b"])?;
    assert_eq!(rt;
        decode(alloc, bytes.as_slice()).err(),
        Some(DecodeFault::BadTag { at: 12 })
    );
    Ok(())
}

#[test]
fn lengths_and_varints_end_with_their_message(rt: HostRuntime) -> Result<(), Fail> {
    let alloc = rt.alloc();
    let rows = [
        // A length of 2^64 - 1 in a known field, in an unknown one, and in a thread of 11 bytes.
        (
            [b"\x0a".as_slice(), MOST, b""],
            DecodeFault::Truncated { at: 19 },
        ),
        (
            [b"\x7a".as_slice(), MOST, b""],
            DecodeFault::Truncated { at: 19 },
        ),
        (
            [b"\x1a\x0b\x12".as_slice(), MOST, b"\x78\x05"],
            DecodeFault::Truncated { at: 21 },
        ),
        // A varint of ten bytes that has too many bits: as a tag, a length, a number, a number in a
        // signal.
        (
            [b"".as_slice(), TOO_WIDE, b"\x00"],
            DecodeFault::BadVarint { at: 8 },
        ),
        (
            [b"\x0a".as_slice(), TOO_WIDE, b"\x00"],
            DecodeFault::BadVarint { at: 9 },
        ),
        (
            [b"\x78".as_slice(), TOO_WIDE, b""],
            DecodeFault::BadVarint { at: 9 },
        ),
        (
            [b"\x32\x0b\x18".as_slice(), TOO_WIDE, b""],
            DecodeFault::BadVarint { at: 11 },
        ),
    ];
    for (parts, fault) in rows {
        let bytes = file(alloc, &parts)?;
        assert_eq!(rt; decode(alloc, bytes.as_slice()).err(), Some(fault));
    }
    Ok(())
}

#[test]
fn a_wrong_wire_type_is_told_once_the_value_is_passed(rt: HostRuntime) -> Result<(), Fail> {
    let alloc = rt.alloc();
    let rows = [
        // The system with four bytes: two of them, and all.
        (
            b"\x0d\x00\x00".as_slice(),
            DecodeFault::Truncated { at: 11 },
        ),
        (
            b"\x0d\x00\x00\x00\x00",
            DecodeFault::WrongWire { field: 1, at: 8 },
        ),
        // With eight bytes: seven of them, and all.
        (
            b"\x09\x00\x00\x00\x00\x00\x00\x00",
            DecodeFault::Truncated { at: 16 },
        ),
        (
            b"\x09\x00\x00\x00\x00\x00\x00\x00\x00",
            DecodeFault::WrongWire { field: 1, at: 8 },
        ),
        // With a number, cut and whole.
        (b"\x08\x80", DecodeFault::Truncated { at: 10 }),
        (b"\x08\x80\x00", DecodeFault::WrongWire { field: 1, at: 8 }),
        // The operating system as a text that passes the system's end, and as an empty one.
        (
            b"\x0a\x02\x0a\x01\x78\x05",
            DecodeFault::Truncated { at: 12 },
        ),
        (
            b"\x0a\x02\x0a\x00\x78\x05",
            DecodeFault::WrongWire { field: 1, at: 10 },
        ),
        // The system's version as a number.
        (
            b"\x0a\x02\x10\x00",
            DecodeFault::WrongWire { field: 2, at: 10 },
        ),
    ];
    for (part, fault) in rows {
        let bytes = file(alloc, &[part])?;
        assert_eq!(rt; decode(alloc, bytes.as_slice()).err(), Some(fault));
    }
    Ok(())
}

#[test]
fn numbers_of_64_bits_are_read_and_shorter_ones_cut(rt: HostRuntime) -> Result<(), Fail> {
    let alloc = rt.alloc();
    // The system and the application of the file, a signal at 2^64 - 1, and a process with the
    // numbers 2^32 + 5, 2^64 - 1 and 2.
    let front = FILE.as_slice().split_at(29).0.split_at(8).1;
    let signal = b"\x32\x11\x0a\x01s\x12\x01c\x18".as_slice();
    let process = b"\x3a\x13\x10\x85\x80\x80\x80\x10\x28".as_slice();
    let bytes = file(alloc, &[front, signal, MOST, process, MOST, b"\x30\x02"])?;
    let text = b"report 1
system 0 0 1 0
application app 1
signal s c 0xffffffffffffffff
process - 5 4294967295 1
";
    assert_eq!(rt; shown(alloc, bytes.as_slice())?.bytes(), text.as_slice());
    Ok(())
}

#[test]
fn unknown_fields_are_passed_over_as_bytes(rt: HostRuntime) -> Result<(), Fail> {
    let alloc = rt.alloc();
    let own = FILE.as_slice().split_at(8).1;

    // A number, eight bytes, four bytes, the field 2^29 - 1, and bytes that are no fields.
    let others =
        b"\x78\x80\x00\x79ABCDEFGH\x7dABCD\xf8\xff\xff\xff\x0f\x00\x7a\x04\x0b\xff\x00\x07";
    let bytes = file(alloc, &[others, own])?;
    assert_eq!(rt; shown(alloc, bytes.as_slice())?.bytes(), TEXT);

    // Sixty messages, each within the one before; the innermost has a byte that is no field.
    let mut bytes = file(alloc, &[])?;
    for level in 0..60u8 {
        bytes.push(0x7a)?;
        bytes.push(119 - 2 * level)?;
    }
    bytes.push(0xff)?;
    bytes.extend_from_slice(own)?;
    assert_eq!(rt; shown(alloc, bytes.as_slice())?.bytes(), TEXT);
    Ok(())
}
