//! Whether two sites are the same.
ghost use Rattle.std.specs.Prelude.{◌≡◌, ◌↔◌, IsTrue};
ghost use Rattle.origin_site.specs.Plain.{plain_site};
ghost use Rattle.origin_site.specs.Site.{same_plain_site, site_text};

use crate::Site;

/// Whether two sites are the same: exactly where their texts are equal.
#[tactic(auto, using(crate::proofs::TextLemmas::site_text_same))]
pub fn same_site(a: &Site, b: &Site) -> bool
    ensures same { IsTrue result ↔ (plain_site a.now ≡ plain_site b.now) }
    ensures text { IsTrue result
        ↔ (site_text (plain_site a.now) ≡ site_text (plain_site b.now)) }
    ensures test { result ≡ same_plain_site (plain_site a.now) (plain_site b.now) }
{
    a == b
}
