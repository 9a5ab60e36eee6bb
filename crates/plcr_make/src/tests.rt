use super::*;
use plcr_io::MemOut;
use std::test::Fail;

// Each byte weighs its place, from 1.
fn weight(bytes: &[u8]) -> u128 {
    let mut sum: u128 = 0;
    let mut place: u64 = 0;
    for byte in bytes {
        place = place.wrapping_add(1);
        sum = sum.wrapping_add(u128::from(place) * u128::from(*byte));
    }
    sum
}

#[test]
fn the_smallest_core_is_made_byte_by_byte(rt: HostRuntime) -> Result<(), Fail> {
    let bytes = core_bytes(rt.alloc(), 1)?;
    assert_eq!(rt; bytes.len(), 68_784);
    let front =
        b"\xcf\xfa\xed\xfe\x07\0\0\x01\x03\0\0\0\x04\0\0\0\x12\0\0\0\x10\x0c\0\0\0\0\0\0\0\0\0\0\
        \x19\0\0\0\x48\0\0\0\0\0\0\0\0\0\0\0\0\0\0\0\0\0\0\0\0\0\0\0\x01\0\0\0\0\x40\0\0\0\0\0\0\
        \x30\x0c\0\0\0\0\0\0\x80\0\0\0\0\0\0\0\x05\0\0\0\x05\0\0\0\0\0\0\0\0\0\0\0";
    assert!(rt; bytes.as_slice().starts_with(front.as_slice()));
    // the image's bytes begin at 3120, its uuid ends with its number, and the first stack stands
    // behind
    if bytes.len() > 3_280 {
        assert_eq!(rt;
            &bytes[3_152..3_166],
            b"\x19\0\0\0\x48\0\0\0__TEXT".as_slice()
        );
        assert_eq!(rt;
            &bytes[3_248..3_264],
            b"\x20\0\0\0\x70\0\0\0\0\x01\0\0\x01\0\0\0".as_slice()
        );
    }
    Ok(())
}

// The weights were worked out by a program of its own, by the same rules.
#[test]
fn cores_have_their_lengths_and_bytes(rt: HostRuntime) -> Result<(), Fail> {
    let cases = [
        (1, 68_784, 6_440_342_343),
        (10, 70_584, 8_342_809_101),
        (4000, 868_584, 5_565_826_705_756),
    ];
    for (images, length, want) in cases {
        let bytes = core_bytes(rt.alloc(), images)?;
        assert_eq!(rt; bytes.len(), length);
        assert_eq!(rt; weight(&bytes), want);
    }
    Ok(())
}

#[test]
fn the_smallest_script_is_made(rt: HostRuntime) -> Result<(), Fail> {
    let text = b"table 4096 1\nload 0x100000000 /usr/lib/lib0.dylib\nunload 0x100000000\n\
        report 0 made.plcrash\n";
    assert_eq!(rt; script_bytes(rt.alloc(), 1)?.as_slice(), text.as_slice());
    Ok(())
}

#[test]
fn scripts_have_their_lengths_and_bytes(rt: HostRuntime) -> Result<(), Fail> {
    let cases = [
        (1, 91, 330_998),
        (10, 443, 7_586_403),
        (4000, 169_793, 1_090_039_481_078),
    ];
    for (images, length, want) in cases {
        let bytes = script_bytes(rt.alloc(), images)?;
        assert_eq!(rt; bytes.len(), length);
        assert_eq!(rt; weight(&bytes), want);
    }
    Ok(())
}

#[test]
fn the_summary_is_one_line(rt: HostRuntime) -> Result<(), Fail> {
    let alloc = rt.alloc();
    let mut out = MemOut::new(alloc, 60, 7, Vec::new(alloc))?;
    assert!(rt; write_summary(0, 16, 512, 7487, &mut out).is_ok());
    assert_eq!(rt;
        out.bytes(),
        b"made images 0 threads 16 frames 512 bytes 7487\n".as_slice()
    );
    assert!(rt; write_summary(8, 16, 512, 7983, &mut out).is_err());
    Ok(())
}
