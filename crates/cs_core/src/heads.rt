//! Whether two heads are the same.

ghost use Rattle.std.specs.Prelude.{◌≡◌};
ghost use Rattle.cs_core.specs.Heads.{is_same_head};

use cs_item::Head;
use cs_roll::are_alike;

pub(crate) fn is_same_head(head: &Head, other: &Head) -> bool
    ensures { result ≡ is_same_head head.now other.now }
{
    head.epoch == other.epoch
        && head.left.as_slice() == other.left.as_slice()
        && head.dropped.as_slice() == other.dropped.as_slice()
        && are_alike(head.summaries.as_slice(), other.summaries.as_slice())
        && head.touched.as_slice() == other.touched.as_slice()
}
