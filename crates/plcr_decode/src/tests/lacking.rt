//! Reports that lack fields, and fields of another wire type than their own.
use crate::{DecodeFault, Kind, decode};
use std::alloc::Global;
use std::test::Fail;

/// What a field is written with.
#[derive(Clone, Copy)]
enum Value<'a> {
    Number(u8),
    Bytes(&'a [u8]),
}

/// A way to write a report with all fields: without these, in rising order of the fields or in
/// falling one.
#[derive(Clone, Copy)]
struct Writing<'a> {
    alloc: Global,
    left_out: &'a [(Kind, u8)],
    rising: bool,
}

/// Appends a field. Texts are of fewer than 128 bytes, and the number is below 16.
fn put_field(bytes: &mut Vec<u8>, number: u8, value: Value<'_>) -> Result<(), Fail> {
    match value {
        Value::Number(value) => {
            bytes.push(number.wrapping_mul(8))?;
            bytes.push(value)?;
        }
        Value::Bytes(text) => {
            bytes.push(number.wrapping_mul(8) | 2)?;
            bytes.push((text.len() % 128) as u8)?;
            bytes.extend_from_slice(text)?;
        }
    }
    Ok(())
}

impl<'a> Writing<'a> {
    fn is_left_out(self, kind: Kind, number: u8) -> bool {
        for left_out in self.left_out {
            if left_out.0 == kind && left_out.1 == number {
                return true;
            }
        }
        false
    }

    /// The message of this kind with these fields.
    fn message(self, kind: Kind, fields: &[(u8, Value<'_>)]) -> Result<Vec<u8>, Fail> {
        let mut bytes = Vec::new(self.alloc);
        for place in 0..fields.len() {
            let place = if self.rising {
                place
            } else {
                fields.len() - 1 - place
            };
            let (number, value) = fields[place];
            if !self.is_left_out(kind, number) {
                put_field(&mut bytes, number, value)?;
            }
        }
        Ok(bytes)
    }

    fn thread(self) -> Result<Vec<u8>, Fail> {
        let symbol = self.message(
            Kind::Symbol,
            &[
                (1, Value::Bytes(b"main")),
                (2, Value::Number(16)),
                (3, Value::Number(32)),
            ],
        )?;
        let frame = self.message(
            Kind::Frame,
            &[(3, Value::Number(17)), (6, Value::Bytes(symbol.as_slice()))],
        )?;
        let register = self.message(
            Kind::Register,
            &[(1, Value::Bytes(b"rip")), (2, Value::Number(17))],
        )?;
        self.message(
            Kind::Thread,
            &[
                (1, Value::Number(0)),
                (2, Value::Bytes(frame.as_slice())),
                (3, Value::Number(1)),
                (4, Value::Bytes(register.as_slice())),
            ],
        )
    }

    fn image(self) -> Result<Vec<u8>, Fail> {
        let processor = self.message(
            Kind::Processor,
            &[
                (1, Value::Number(1)),
                (2, Value::Number(7)),
                (3, Value::Number(3)),
            ],
        )?;
        self.message(
            Kind::Image,
            &[
                (1, Value::Number(16)),
                (2, Value::Number(64)),
                (3, Value::Bytes(b"/bin/app")),
                (4, Value::Bytes(b"\xab\x01")),
                (5, Value::Bytes(processor.as_slice())),
            ],
        )
    }

    fn system(self) -> Result<Vec<u8>, Fail> {
        self.message(
            Kind::System,
            &[
                (1, Value::Number(0)),
                (2, Value::Bytes(b"14")),
                (3, Value::Number(1)),
                (4, Value::Number(0)),
                (5, Value::Bytes(b"23A")),
            ],
        )
    }

    fn application(self) -> Result<Vec<u8>, Fail> {
        self.message(
            Kind::Application,
            &[(1, Value::Bytes(b"app")), (2, Value::Bytes(b"1"))],
        )
    }

    fn signal(self) -> Result<Vec<u8>, Fail> {
        self.message(
            Kind::Signal,
            &[
                (1, Value::Bytes(b"SIGABRT")),
                (2, Value::Bytes(b"#0")),
                (3, Value::Number(0)),
            ],
        )
    }

    fn process(self) -> Result<Vec<u8>, Fail> {
        self.message(
            Kind::Process,
            &[
                (1, Value::Bytes(b"app")),
                (2, Value::Number(5)),
                (3, Value::Bytes(b"/bin/app")),
                (4, Value::Bytes(b"init")),
                (5, Value::Number(1)),
                (6, Value::Number(1)),
            ],
        )
    }

    fn info(self) -> Result<Vec<u8>, Fail> {
        self.message(
            Kind::Info,
            &[(1, Value::Number(0)), (2, Value::Bytes(b"\xcd"))],
        )
    }

    /// The file of the report, its threads being these.
    fn file_of(self, threads: &[&[u8]]) -> Result<Vec<u8>, Fail> {
        let mut threads_bytes = Vec::new(self.alloc);
        for thread in threads {
            put_field(&mut threads_bytes, 3, Value::Bytes(thread))?;
        }
        let system = self.system()?;
        let application = self.application()?;
        let image = self.image()?;
        let signal = self.signal()?;
        let process = self.process()?;
        let info = self.info()?;
        let front = [
            (1, Value::Bytes(system.as_slice())),
            (2, Value::Bytes(application.as_slice())),
        ];
        let back = [
            (4, Value::Bytes(image.as_slice())),
            (6, Value::Bytes(signal.as_slice())),
            (7, Value::Bytes(process.as_slice())),
            (9, Value::Bytes(info.as_slice())),
        ];
        let front = self.message(Kind::Root, &front)?;
        let back = self.message(Kind::Root, &back)?;

        let mut bytes = Vec::from_slice(self.alloc, b"plcrash\x01")?;
        if self.rising {
            bytes.extend_from_slice(front.as_slice())?;
            bytes.extend_from_slice(threads_bytes.as_slice())?;
            bytes.extend_from_slice(back.as_slice())?;
        } else {
            bytes.extend_from_slice(back.as_slice())?;
            bytes.extend_from_slice(threads_bytes.as_slice())?;
            bytes.extend_from_slice(front.as_slice())?;
        }
        Ok(bytes)
    }

    /// What the report's file is refused with.
    fn refused(self) -> Result<Option<DecodeFault>, Fail> {
        let thread = self.thread()?;
        let bytes = self.file_of(&[thread.as_slice()])?;
        Ok(decode(self.alloc, bytes.as_slice()).err())
    }
}

/// What a report without these fields is refused with, its fields in rising order and in falling
/// one.
fn refused_without(
    alloc: Global,
    left_out: &[(Kind, u8)],
) -> Result<[Option<DecodeFault>; 2], Fail> {
    let rising = Writing {
        alloc,
        left_out,
        rising: true,
    };
    let falling = Writing {
        alloc,
        left_out,
        rising: false,
    };
    Ok([rising.refused()?, falling.refused()?])
}

#[test]
fn each_field_is_required_or_not(rt: HostRuntime) -> Result<(), Fail> {
    let alloc = rt.alloc();
    // Each message with the fields that it has to have, and others of its fields.
    let rows: [(Kind, &[u8], &[u8]); 12] = [
        (Kind::Root, &[1, 2, 6], &[4, 7, 9]),
        (Kind::System, &[1, 2, 3, 4], &[5]),
        (Kind::Application, &[1, 2], &[]),
        (Kind::Thread, &[1, 3], &[2, 4]),
        (Kind::Frame, &[3], &[6]),
        (Kind::Symbol, &[1, 2], &[3]),
        (Kind::Register, &[1, 2], &[]),
        (Kind::Image, &[1, 2, 3], &[4, 5]),
        (Kind::Processor, &[1, 2, 3], &[]),
        (Kind::Signal, &[1, 2, 3], &[]),
        (Kind::Process, &[2, 5, 6], &[1, 3, 4]),
        (Kind::Info, &[1], &[2]),
    ];
    assert_eq!(rt; refused_without(alloc, &[])?, [None, None]);
    for (message, required, others) in rows {
        for number in required {
            let missing = Some(DecodeFault::Missing {
                message,
                field: u32::from(*number),
            });
            assert_eq!(rt;
                refused_without(alloc, &[(message, *number)])?,
                [missing, missing]
            );
        }
        for number in others {
            assert_eq!(rt;
                refused_without(alloc, &[(message, *number)])?,
                [None, None],
                "{message:?} {number}"
            );
        }
    }
    Ok(())
}

#[test]
fn of_several_that_lack_the_first_is_told(rt: HostRuntime) -> Result<(), Fail> {
    let alloc = rt.alloc();
    // Of each pair the first is told: a message's own before those in it, then by number, wherever
    // they stand.
    let rows = [
        ((Kind::Root, 6), (Kind::System, 1)),
        ((Kind::System, 2), (Kind::System, 4)),
        ((Kind::System, 4), (Kind::Application, 1)),
        ((Kind::Application, 2), (Kind::Thread, 1)),
        ((Kind::Thread, 3), (Kind::Frame, 3)),
        ((Kind::Frame, 3), (Kind::Symbol, 1)),
        ((Kind::Symbol, 2), (Kind::Register, 1)),
        ((Kind::Register, 2), (Kind::Image, 1)),
        ((Kind::Image, 3), (Kind::Processor, 1)),
        ((Kind::Processor, 3), (Kind::Signal, 1)),
        ((Kind::Signal, 3), (Kind::Process, 2)),
        ((Kind::Process, 6), (Kind::Info, 1)),
    ];
    for (first, other) in rows {
        let missing = Some(DecodeFault::Missing {
            message: first.0,
            field: u32::from(first.1),
        });
        assert_eq!(rt;
            refused_without(alloc, &[other, first])?,
            [missing, missing]
        );
    }

    // Of two threads the one that stands first is told, with the frame's symbol in it.
    let whole = Writing {
        alloc,
        left_out: &[],
        rising: true,
    };
    let numberless = Writing {
        left_out: &[(Kind::Thread, 1)],
        ..whole
    }
    .thread()?;
    let nameless = Writing {
        left_out: &[(Kind::Symbol, 1)],
        ..whole
    }
    .thread()?;
    let rows = [
        ([&nameless, &numberless], Kind::Symbol),
        ([&numberless, &nameless], Kind::Thread),
    ];
    for (threads, message) in rows {
        let bytes = whole.file_of(&[threads[0].as_slice(), threads[1].as_slice()])?;
        assert_eq!(rt;
            decode(alloc, bytes.as_slice()).err(),
            Some(DecodeFault::Missing { message, field: 1 })
        );
    }
    Ok(())
}

/// A file with just this field, which takes two bytes, in the messages whose tags these are.
fn within(alloc: Global, tags: &[u8], field: [u8; 2]) -> Result<Vec<u8>, Fail> {
    let mut bytes = Vec::from_slice(alloc, b"plcrash\x01")?;
    for place in 0..tags.len() {
        bytes.push(tags[place])?;
        bytes.push(((2 * (tags.len() - place)) % 128) as u8)?;
    }
    bytes.extend_from_slice(&field)?;
    Ok(bytes)
}

#[test]
fn each_field_has_one_wire_type(rt: HostRuntime) -> Result<(), Fail> {
    let alloc = rt.alloc();
    // For each message the tags of those around it and its own, its numbers, and its texts and
    // messages.
    let rows: [(&[u8], &[u8], &[u8]); 12] = [
        (b"", &[], &[1, 2, 3, 4, 6, 7, 9]),
        (b"\x0a", &[1, 3, 4], &[2, 5]),
        (b"\x12", &[], &[1, 2]),
        (b"\x1a", &[1, 3], &[2, 4]),
        (b"\x1a\x12", &[3], &[6]),
        (b"\x1a\x12\x32", &[2, 3], &[1]),
        (b"\x1a\x22", &[2], &[1]),
        (b"\x22", &[1, 2], &[3, 4, 5]),
        (b"\x22\x2a", &[1, 2, 3], &[]),
        (b"\x32", &[3], &[1, 2]),
        (b"\x3a", &[2, 5, 6], &[1, 3, 4]),
        (b"\x4a", &[1], &[2]),
    ];
    for (tags, numbers, texts) in rows {
        let at = 8 + 2 * tags.len();
        for number in numbers {
            let bytes = within(alloc, tags, [number.wrapping_mul(8) | 2, 0])?;
            let field = u32::from(*number);
            assert_eq!(rt;
                decode(alloc, bytes.as_slice()).err(),
                Some(DecodeFault::WrongWire { field, at })
            );
        }
        for number in texts {
            let bytes = within(alloc, tags, [number.wrapping_mul(8), 0])?;
            let field = u32::from(*number);
            assert_eq!(rt;
                decode(alloc, bytes.as_slice()).err(),
                Some(DecodeFault::WrongWire { field, at })
            );
        }
    }
    Ok(())
}
