use super::*;
use std::test::Fail;

// The bytes 1, 2, 3, .. from a place on, the lowest first.
#[test]
fn numbers_stand_at_their_places(rt: HostRuntime) -> Result<(), Fail> {
    let bytes = [1, 2, 3, 4, 5, 6, 7, 8, 0x89];
    assert_eq!(rt; read_u16(&bytes, 0), 0x0201);
    assert_eq!(rt; read_u16(&bytes, 7), 0x8908);
    assert_eq!(rt; read_u32(&bytes, 1), 0x0504_0302);
    assert_eq!(rt; read_u32(&bytes, 5), 0x8908_0706);
    assert_eq!(rt; read_u64(&bytes, 0), 0x0807_0605_0403_0201);
    assert_eq!(rt; read_u64(&bytes, 1), 0x8908_0706_0504_0302);
    assert_eq!(rt; read_padded_u64(&bytes, 0), 0x0807_0605_0403_0201);
    assert_eq!(rt; read_padded_u64(&bytes, 6), 0x0089_0807);
    assert_eq!(rt; read_padded_u64(&bytes, 9), 0);
    Ok(())
}

#[test]
fn rows_are_used_as_a_slice(rt: HostRuntime) -> Result<(), Fail> {
    let alloc = rt.alloc();
    let rows = Rows::new(vec![in alloc; 7u64, 9]?);
    assert_eq!(rt; rows.len(), 2);
    assert_eq!(rt; rows[1], 9);
    assert_eq!(rt; rows.first(), Some(&7));
    let mut sum = 0u64;
    for row in &rows {
        sum = sum.wrapping_add(*row);
    }
    assert_eq!(rt; sum, 16);
    assert_eq!(rt; rows.into_vec().as_slice(), [7, 9].as_slice());
    let bytes: Bytes = Rows::new(b"rax".to_vec(alloc)?);
    assert_eq!(rt; bytes.as_slice(), b"rax".as_slice());
    Ok(())
}
