//! The numbers by which pairs of sites are found.
ghost use Rattle.std.specs.Prelude.{◌≡◌};
ghost use Rattle.origin_site.specs.Plain.{plain_site};
ghost use Rattle.access_grants.specs.Index.{pair_code};

use origin_site::Site;
use std::hash::{DefaultHasher, Hash, Hasher};

/// The number of a pair. It takes some 2^32 trials to find two pairs with one number.
pub fn pair_code(top: &Site, site: &Site) -> u64
    ensures { result ≡ pair_code (plain_site top.now) (plain_site site.now) }
{
    let mut state = DefaultHasher::new();
    top.hash(&mut state);
    site.hash(&mut state);
    state.finish()
}
