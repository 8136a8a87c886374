use crate::{all_bytes, read};
use std::test::Fail;

#[test]
fn all_that_is_left_is_read(rt: HostRuntime) -> Result<(), Fail> {
    let mut input: &[u8] = b"list a\n+ 0..1\n";
    let bytes = all_bytes(rt.alloc(), &mut input)?;
    assert_eq!(rt; bytes.as_slice(), b"list a\n+ 0..1\n".as_slice());
    assert!(rt; input.is_empty());
    Ok(())
}

#[test]
fn a_file_is_read(rt: HostRuntime) -> Result<(), Fail> {
    let empty = read(&rt, Some(format!(in rt.alloc(); "/dev/null")?))?;
    assert!(rt; empty.is_empty());
    assert!(rt; read(&rt, Some(format!(in rt.alloc(); "/dev/null/plan")?)).is_err());
    Ok(())
}

#[test]
fn all_of_a_file_is_read(rt: HostRuntime) -> Result<(), Fail> {
    let bytes = read(
        &rt,
        Some(format!(in rt.alloc(); "/proc/sys/kernel/ostype")?),
    )?;
    assert_eq!(rt; bytes.as_slice(), b"Linux\n".as_slice());
    Ok(())
}
