//! Whether classes and arguments are the same.
ghost use Rattle.sn_actions.specs.Same.{same_arg, same_class};
ghost use Rattle.std.specs.Prelude.{◌≡◌};

use sn_names::{Arg, Class};

/// Whether both classes are the same.
pub fn is_same_class(a: Class, b: Class) -> bool
    ensures { result ≡ same_class a b }
{
    a == b
}

/// Whether both arguments are the same.
pub fn is_same_arg(a: &Arg, b: &Arg) -> bool
    ensures { result ≡ same_arg a.now b.now }
{
    a == b
}
