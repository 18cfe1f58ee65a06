//! Whether two origins are the same.
ghost use Rattle.std.specs.Prelude.{◌≡◌, ◌↔◌, IsTrue};
ghost use Rattle.origin_site.specs.Origin.{IsSameOrigin, same_plain_origin};
ghost use Rattle.origin_site.specs.Plain.{plain_origin};

use crate::Origin;

/// Whether two origins are the same: HTML's rule, which asks for equal scheme, host and port.
pub fn same_origin(a: &Origin, b: &Origin) -> bool
    ensures same { IsTrue result ↔ (plain_origin a.now ≡ plain_origin b.now) }
    ensures html { IsTrue result ↔ IsSameOrigin (plain_origin a.now) (plain_origin b.now) }
    ensures test { result ≡ same_plain_origin (plain_origin a.now) (plain_origin b.now) }
{
    a == b
}
