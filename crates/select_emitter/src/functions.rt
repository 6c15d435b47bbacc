//! The functions of code that can be selected.

ghost use Rattle.std.specs.Prelude.{◌≡◌, ◌<◌, All, length};
ghost use Rattle.mid_code.specs.Form.{AreBelow};
ghost use Rattle.mid_code.specs.Machine.{fn_of};
ghost use Rattle.select_emitter.specs.Code.{CanBeSelected, IsSmall};
ghost use Rattle.select_emitter.specs.Scoped.{Fits};

use mid_code::{MidCode, MidFn};

fn function_of(c: &MidCode, f: usize) -> &MidFn
    requires { f < length c.now.fns }
    ensures { result.now ≡ fn_of c.now f }
{
    &c.fns.as_slice()[f]
}

/// A function, with what selection asks of it.
pub(crate) fn function_at(c: &MidCode, f: usize) -> &MidFn
    requires can { CanBeSelected c.now }
    requires function { f < length c.now.fns }
    ensures is { result.now ≡ fn_of c.now f }
    ensures params { AreBelow result.now.values result.now.params }
    ensures small { IsSmall result.now }
    ensures fits { All (Fits c.now result.now.values) result.now.code }
{
    function_of(c, f)
}
