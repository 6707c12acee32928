//! Reads and writes that fail.

use crate::outcome::{NEVER, ended};
use std::test::Fail;

/// A specification with a value for its parameter, whose run gives `{1, 3}`.
const DEDUP: &str =
    "spec dedup (xs: list as array kept) : set as bits 1000\n  s0 <- empty as bits 1000\n  n <- len xs\n  (i, s) <- while (i, s) from (0, s0) if i < n do\n    x <- get xs i\n    assert x < 1000\n    t <- insert s x\n    return (i + 1, t)\n  end\n  return s\nend\nwith xs = [3, 1, 3]\n";

#[test]
fn a_read_that_fails_is_told(rt: HostRuntime) -> Result<(), Fail> {
    let input = Vec::from_slice(rt.alloc(), DEDUP.as_bytes())?;
    let (status, written) = ended(rt.alloc(), "run", input, (16, 4096), (1, NEVER))?;
    assert!(rt; status == 20 && written.as_slice() == b"! read fault\n".as_slice());
    Ok(())
}

#[test]
fn a_write_that_fails_leaves_a_front(rt: HostRuntime) -> Result<(), Fail> {
    let input = Vec::from_slice(rt.alloc(), DEDUP.as_bytes())?;
    let (status, written) = ended(rt.alloc(), "run", input, (4096, 4), (NEVER, 2))?;
    assert!(rt; status == 21 && written.as_slice() == b"= {1, 3}".as_slice());
    Ok(())
}
