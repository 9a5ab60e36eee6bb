ghost use Rattle.std.specs.Prelude.{◌≡◌, [], None};

use super::*;
use plcr_io::{MemOut, PutFailed, Sink};
use std::alloc::Global;
use std::test::Fail;

// A sink that takes whole pieces, and keeps their number and the lengths of the longest and of all
// of them.
#[derive(Drop)]
struct Lengths {
    puts: u64,
    longest: usize,
    all: u64,
}

impl Lengths {
    fn new() -> Lengths {
        Lengths {
            puts: 0,
            longest: 0,
            all: 0,
        }
    }
}

impl Sink for Lengths {
    ghost written = { λ _. None };

    ghost faults = { λ _. 0 };

    ghost mark = { λ _. [] };

    fn put(&mut self, piece: &[u8]) -> Result<usize, PutFailed> {
        self.puts = self.puts.saturating_add(1);
        self.longest = self.longest.max(piece.len());
        self.all = self.all.saturating_add(piece.len() as u64);
        Ok(piece.len())
    }
}

fn sink(alloc: Global, most: usize, failing: Vec<u32>) -> Result<MemOut, Fail> {
    let most = most.max(1);
    Ok(MemOut::new(alloc, 1000, most, failing)?)
}

#[test]
fn varints_are_the_shortest(rt: HostRuntime) -> Result<(), Fail> {
    let rows = [
        (0, b"\x00".as_slice()),
        (1, b"\x01".as_slice()),
        (127, b"\x7f".as_slice()),
        (128, b"\x80\x01".as_slice()),
        (16_383, b"\xff\x7f".as_slice()),
        (16_384, b"\x80\x80\x01".as_slice()),
        (300, b"\xac\x02".as_slice()),
        (4_294_967_295, b"\xff\xff\xff\xff\x0f".as_slice()),
        (
            0x7fff_ffff_ffff_ffff,
            b"\xff\xff\xff\xff\xff\xff\xff\xff\x7f".as_slice(),
        ),
        (
            0x8000_0000_0000_0000,
            b"\x80\x80\x80\x80\x80\x80\x80\x80\x80\x01".as_slice(),
        ),
        (
            u64::MAX,
            b"\xff\xff\xff\xff\xff\xff\xff\xff\xff\x01".as_slice(),
        ),
    ];
    for (value, bytes) in rows {
        let mut out = sink(rt.alloc(), 100, Vec::new(rt.alloc()))?;
        let mut buffered = Buffered::new(&mut out);
        assert_eq!(rt; put_varint(&mut buffered, value), Ok(()));
        buffered.finish()?;
        assert_eq!(rt; out.bytes(), bytes);
        assert_eq!(rt; varint_len(value), bytes.len() as u64);
    }
    Ok(())
}

#[test]
fn tags_have_a_number_and_a_wire_type(rt: HostRuntime) -> Result<(), Fail> {
    let mut out = sink(rt.alloc(), 100, Vec::new(rt.alloc()))?;
    let mut buffered = Buffered::new(&mut out);
    assert_eq!(rt; put_tag(&mut buffered, 1, 0), Ok(()));
    assert_eq!(rt; put_tag(&mut buffered, 6, 2), Ok(()));
    assert_eq!(rt; put_tag(&mut buffered, 16, 5), Ok(()));
    assert_eq!(rt; put_tag(&mut buffered, 536_870_911, 7), Ok(()));
    buffered.finish()?;
    assert_eq!(rt;
        out.bytes(),
        b"\x08\x32\x85\x01\xff\xff\xff\xff\x0f".as_slice()
    );
    Ok(())
}

// A message of a number, a text and a submessage of one number.
fn put_fields<W: Ink>(ink: &mut W, text: &[u8]) {
    ink.number(1, 300);
    ink.text(2, text);
    ink.head(3, 2);
    ink.number(1, 7);
}

#[test]
fn a_message_comes_out_the_same_in_any_pieces(rt: HostRuntime) -> Result<(), Fail> {
    let text = [b'x'; 600];
    for most in [1, 7, 300] {
        let mut out = sink(rt.alloc(), most, Vec::new(rt.alloc()))?;
        let mut buffered = Buffered::new(&mut out);
        put_fields(&mut buffered, &text);
        buffered.finish()?;
        assert_eq!(rt; out.bytes().len(), 610);
        let (front, rest) = out.bytes().split_at(6);
        let (middle, end) = rest.split_at(600);
        assert_eq!(rt; front, b"\x08\xac\x02\x12\xd8\x04".as_slice());
        assert_eq!(rt; middle, text.as_slice());
        assert_eq!(rt; end, b"\x1a\x02\x08\x07".as_slice());
    }

    let mut counter = Counter::new();
    put_fields(&mut counter, &text);
    assert_eq!(rt; counter.count(), 610);
    Ok(())
}

#[test]
fn pieces_have_256_bytes(rt: HostRuntime) -> Result<(), Fail> {
    let mut lengths = Lengths::new();
    let mut buffered = Buffered::new(&mut lengths);
    put_fields(&mut buffered, &[b'x'; 600]);
    buffered.finish()?;
    assert_eq!(rt; lengths.puts, 3);
    assert_eq!(rt; lengths.longest, 256);
    assert_eq!(rt; lengths.all, 610);
    Ok(())
}

#[test]
fn pieces_of_a_text_have_4096_bytes(rt: HostRuntime) -> Result<(), Fail> {
    let mut lengths = Lengths::new();
    let mut buffered = BufferedText::new(&mut lengths);
    for _ in 0..5000 {
        buffered.raw(b"x");
    }
    buffered.finish()?;
    assert_eq!(rt; lengths.puts, 2);
    assert_eq!(rt; lengths.longest, 4096);
    assert_eq!(rt; lengths.all, 5000);
    Ok(())
}

#[test]
fn a_failure_is_remembered(rt: HostRuntime) -> Result<(), Fail> {
    let mut out = sink(rt.alloc(), 256, vec![in rt.alloc(); 2]?)?;
    let mut buffered = Buffered::new(&mut out);
    put_fields(&mut buffered, &[b'x'; 600]);
    assert_eq!(rt; buffered.finish(), Err(PutFailed));
    assert_eq!(rt; out.bytes().len(), 256);
    let (front, rest) = out.bytes().split_at(6);
    assert_eq!(rt; front, b"\x08\xac\x02\x12\xd8\x04".as_slice());
    assert_eq!(rt; rest, [b'x'; 250].as_slice());
    Ok(())
}

#[test]
fn a_flush_that_failed_is_made_good_by_the_next(rt: HostRuntime) -> Result<(), Fail> {
    let mut out = sink(rt.alloc(), 1, vec![in rt.alloc(); 2]?)?;
    let mut buffered = Buffered::new(&mut out);
    assert_eq!(rt; put_varint(&mut buffered, 300), Ok(()));
    assert_eq!(rt; buffered.flush(), Err(PutFailed));
    assert_eq!(rt; buffered.byte(9), Ok(()));
    assert_eq!(rt; buffered.flush(), Ok(()));
    buffered.finish()?;
    assert_eq!(rt; out.bytes(), b"\xac\x02\x09".as_slice());
    Ok(())
}

#[test]
fn what_lost_bytes_puts_nothing_more(rt: HostRuntime) -> Result<(), Fail> {
    let mut out = sink(rt.alloc(), 256, vec![in rt.alloc(); 1]?)?;
    let mut buffered = Buffered::new(&mut out);
    buffered.raw(&[b'x'; 600]);
    put_fields(&mut buffered, &[b'x'; 600]);
    assert_eq!(rt; buffered.flush(), Err(PutFailed));
    assert_eq!(rt; buffered.finish(), Err(PutFailed));
    assert_eq!(rt; out.bytes().len(), 0);
    Ok(())
}

#[test]
fn fields_are_read_or_their_first_fault(rt: HostRuntime) {
    let wide = b"\x08\xff\xff\xff\xff\xff\xff\xff\xff\xff\x01";
    let too_wide = b"\x08\x80\x80\x80\x80\x80\x80\x80\x80\x80\x02";
    let rows = [
        (
            b"\x08\xac\x02".as_slice(),
            0,
            Ok((1, Value::Varint(300), 3)),
        ),
        (b"\x08\x80\x00".as_slice(), 0, Ok((1, Value::Varint(0), 3))),
        (wide.as_slice(), 0, Ok((1, Value::Varint(u64::MAX), 11))),
        (
            b"\x09\x01\x02\x00\x00\x00\x00\x00\x00".as_slice(),
            0,
            Ok((1, Value::Fixed64(513), 9)),
        ),
        (
            b"..\x12\x03abc.".as_slice(),
            2,
            Ok((2, Value::Span { from: 4, to: 7 }, 7)),
        ),
        (
            b"\x15\x78\x56\x34\x12".as_slice(),
            0,
            Ok((2, Value::Fixed32(0x1234_5678), 5)),
        ),
        (b"\x80".as_slice(), 0, Err(WireFault::Truncated { at: 1 })),
        (b"\x08".as_slice(), 0, Err(WireFault::Truncated { at: 1 })),
        (
            b"\x15\x78\x56\x34".as_slice(),
            0,
            Err(WireFault::Truncated { at: 4 }),
        ),
        (
            b".\x12\x04abc".as_slice(),
            1,
            Err(WireFault::Truncated { at: 6 }),
        ),
        (too_wide.as_slice(), 0, Err(WireFault::BadVarint { at: 1 })),
        (b".\x07\x00".as_slice(), 1, Err(WireFault::BadTag { at: 1 })),
        (b"\x0b\x00".as_slice(), 0, Err(WireFault::BadTag { at: 0 })),
        (
            b"\x80\x80\x80\x80\x10\x00".as_slice(),
            0,
            Err(WireFault::BadTag { at: 0 }),
        ),
    ];
    for (bytes, at, want) in rows {
        if at < bytes.len() {
            let found = next_field(bytes, at, bytes.len());
            let want = want.map(|(number, value, next)| Field {
                number,
                value,
                next,
            });
            assert_eq!(rt; found, want);
        }
    }
    assert_eq!(rt;
        next_field(b"\x08\x05", 0, 1),
        Err(WireFault::Truncated { at: 1 })
    );
}
