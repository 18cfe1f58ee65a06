//! Uses of cookies.
ghost use Rattle.std.specs.Prelude.{◌≡◌};
ghost use Rattle.cookie_jar.specs.Plain.{plain_access};
ghost use Rattle.agent_model.specs.CookieUse as spec;
ghost use Rattle.web_cookies.specs.Uses.{plain_use};

use cookie_jar::Access;
use origin_site::{Address, Site};
use storage_key::Context;

/// A use of a URL's cookies: by a load, by a request of a document, or by a script.
#[derive(Clone, Copy, Debug)]
pub struct CookieUse<'a> {
    /// The address whose cookies are used; of a script, that of its document.
    pub url: &'a Address,
    /// The top-level site.
    pub top: &'a Site,
    pub context: Context,
    /// Whether the request is same-site; of a script, whether its document is first party.
    pub same_site: bool,
    /// Whether a top document is loaded.
    pub top_load: bool,
    /// Whether the method is safe.
    pub safe: bool,
    /// Whether a script reads or sets.
    pub script: bool,
    /// Whether storage access is granted.
    pub granted: bool,
}

/// A use in the words of `cookie_jar`.
pub fn access_of<'a>(how: &CookieUse<'a>) -> Access<'a>
    ensures value { plain_access result ≡ spec.access_of (plain_use how.now) }
{
    Access {
        https: how.url.https,
        host: how.url.host.as_str(),
        ip: how.url.ip,
        path: how.url.path.as_str(),
        first: how.context.first,
        same_site: how.same_site,
        top_load: how.top_load,
        safe: how.safe,
        script: how.script,
        granted: how.granted,
    }
}
