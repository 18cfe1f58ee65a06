//! Which cookies of a cell row changes are made of.
ghost use Rattle.std.specs.Prelude.{◌≡◌};
ghost use Rattle.cookie_jar.specs.Plain.{plain_cookie};
ghost use Rattle.row_store.specs.Pushed.{is_chosen};

use cookie_jar::Cookie;

/// Which cookies of a cell row changes are made of.
#[derive(Clone, Copy, Debug)]
pub enum Which {
    /// All of them, as they stand.
    All,
    /// Those that outlive a restart.
    Persistent,
}

impl Which {
    /// Whether a cookie is one of them.
    pub fn has(self, cookie: &Cookie) -> bool
        ensures { result ≡ is_chosen self (plain_cookie cookie.now) }
    {
        match self {
            Which::All => true,
            Which::Persistent => cookie.expiry.is_some(),
        }
    }
}
