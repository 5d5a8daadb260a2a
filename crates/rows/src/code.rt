// Codes: the numbers that stand for kinds and rules. `Kind` and `Rule` each have their own impls to convert and to show them,
// and their own table of names: the language allows no `impl` of `TryFrom` or `Display` for every type that has a trait, and the
// tables have nothing in common.
ghost use Rattle.std.specs.Prelude.{Some};
ghost use Rattle.rows.specs.Code.{unknown_code_text};

use std::error::Error;
use std::fmt;

// A code that stands for nothing.
#[derive(Clone, Copy, Debug, PartialEq, Eq)]
pub struct UnknownCode(pub u8);

impl fmt::Display for UnknownCode {
    ghost output = { λ e. Some (unknown_code_text e.0) };

    fn fmt<W: fmt::Write>(&self, f: &mut fmt::Formatter<W>) -> fmt::Result {
        write!(f, "nothing has the code {}", self.0)
    }
}

impl Error for UnknownCode {}
