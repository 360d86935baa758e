// The fluents that a law names: "a law that names a fluent known to nobody in the crew counts as false and is not read".
ghost use Rattle.std.specs.Prelude.{◌≡◌, drop};
ghost use Rattle.bmap.specs.Limits.{most_depth};
ghost use Rattle.bmap.specs.Code.{parse_c};
ghost use Rattle.law.specs.Names.{names_only};

use crate::checks::tree_end;
use crate::may::only_of;
use crate::table::CONSTRAINT;

// Whether every fluent that the constraint names has its bit in the mask: the checker, with this for its test.
pub fn names_only(s: &[u8], at: usize, mask: u32) -> bool
    ensures { result ≡ names_only mask (parse_c most_depth (drop at s.now)) }
{
    tree_end::<CONSTRAINT>(s, at, only_of(mask)).is_some()
}
