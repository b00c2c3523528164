//! Calls that take memory, with ample memory.

use crate::bytes::{Bytes, Name};
use std::test::Fail;

#[test]
fn bytes_grow_at_their_end(rt: HostRuntime) -> Result<(), Fail> {
    let mut bytes = Bytes::from_slice(rt.alloc(), b"ab")?;
    bytes.push(b'c')?;
    bytes.extend(b"de")?;
    let name = Name::from_slice(rt.alloc(), b"t")?;
    assert_eq!(rt; bytes.as_slice(), b"abcde".as_slice());
    assert_eq!(rt; bytes.len(), 5);
    assert_eq!(rt; name.as_slice(), b"t".as_slice());
    Ok(())
}
