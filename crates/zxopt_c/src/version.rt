//! The version of the library.

ghost use Rattle.std.specs.Prelude.{◌≡◌, ◌+◌, ◌*◌};

// The three numbers of `VERSION` in the Makefile.
const MAJOR: u32 = 1;

const MINOR: u32 = 0;

const PATCH: u32 = 0;

/// The version of the library as one number, with two digits for each but its first: 10,203 is 1.2.3.
#[unsafe(no_mangle)]
pub extern "C" fn zxopt_version() -> u32
    ensures { result ≡ 10000 * MAJOR + 100 * MINOR + PATCH }
{
    10_000 * MAJOR + 100 * MINOR + PATCH
}
