//! Texts of several tests.

pub(crate) const FIRST: &str =
    "spec first (xs: list as array kept) : nat\n  x <- get xs 0\n  return x\nend\n";

pub(crate) const FIRST_PROGRAM: &str =
    "sepref 1\nin xs array kept\nout word\nproc main 3 5\n  r3 = const 0\n  r4 = call array_get(r0, r1, r2, r3)\n  ret r4\nend\nproc array_get 4 6\n  r4 = add r1 r3\n  r5 = load r0 r4\n  ret r5\nend\n";

pub(crate) const ONE: &str = "spec one () : nat\n  return 1\nend\n";

pub(crate) const ONE_PROGRAM: &str =
    "sepref 1\nout word\nproc main 0 1\n  r0 = const 1\n  ret r0\nend\n";
