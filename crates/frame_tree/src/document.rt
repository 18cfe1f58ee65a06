//! Documents.
ghost use Rattle.std.specs.Prelude.{◌≡◌, IfOk, option_map, option_copied};
ghost use Rattle.origin_site.specs.Plain.{plain_address, plain_origin, plain_site};
ghost use Rattle.origin_site.specs.Site.{site_of_address, site_of_origin};
ghost use Rattle.frame_tree.specs.Plain.{plain_document, plain_sandbox, plain_chain_site};
ghost use Rattle.frame_tree.specs.Document.{is_active_by, loaded, loaded_below, loaded_instead};
ghost use Rattle.frame_tree.specs.Document.{origin_under, same_document_origin};

use crate::Sandbox;
use agent_base::NoMemory;
use origin_site::{Address, Origin, Site, domain_of, same_origin, site_of};
use std::alloc::Global;
use suffix_list::SuffixList;

/// A document of a frame.
///
/// `origin` and `site` are None where the origin is opaque. `sandbox` and `deny` are the effective
/// ones: the frame's own, with each restriction of the documents above.
#[derive(Debug, Drop)]
pub struct Document {
    pub address: Address,
    pub origin: Option<Origin>,
    pub site: Option<Site>,
    pub sandbox: Sandbox,
    /// The permissions policy `storage-access` is denied.
    pub deny: bool,
    /// The document has storage access.
    pub flag: bool,
    /// The moment of the last activation that was not consumed, in seconds since 1970.
    pub mark: Option<i64>,
}

impl Document {
    /// The same document, over memory of its own.
    pub fn copy(&self, alloc: Global) -> Result<Document, NoMemory>
        ensures same { IfOk result (λ document. plain_document document ≡ plain_document self.now) }
    {
        Ok(Document {
            address: self.address.copy(alloc)?,
            origin: copy_of_origin(alloc, &self.origin)?,
            site: copy_of_site(alloc, &self.site)?,
            sandbox: self.sandbox,
            deny: self.deny,
            flag: self.flag,
            mark: self.mark,
        })
    }

    // The document of a frame below this one's, with its own sandbox and policy.
    pub(crate) fn load_below(
        &self,
        alloc: Global,
        address: Address,
        sandbox: Sandbox,
        deny: bool,
        list: &SuffixList,
    ) -> Result<Document, NoMemory>
        ensures { IfOk result (λ document. plain_document document ≡ loaded_below list.now.rules
            (plain_document self.now) (plain_sandbox sandbox) deny (plain_address address)) }
    {
        let sandbox = self.sandbox.both(sandbox);
        Document::load(alloc, address, sandbox, self.deny || deny, list)
    }

    // The document that a navigation puts in the place of this one.
    pub(crate) fn load_instead(
        &self,
        alloc: Global,
        address: Address,
        keep_flag: bool,
        list: &SuffixList,
    ) -> Result<Document, NoMemory>
        ensures { IfOk result (λ document. plain_document document
            ≡ loaded_instead list.now.rules keep_flag (plain_document self.now)
            (plain_address address)) }
    {
        let mut document = Document::load(alloc, address, self.sandbox, self.deny, list)?;
        document.flag = keep_flag && self.flag;
        Ok(document)
    }

    // A document that was just loaded.
    pub(crate) fn load(
        alloc: Global,
        address: Address,
        sandbox: Sandbox,
        deny: bool,
        list: &SuffixList,
    ) -> Result<Document, NoMemory>
        ensures { IfOk result (λ document. plain_document document
            ≡ loaded list.now.rules (plain_sandbox sandbox) deny (plain_address address)) }
    {
        let origin = origin_under(alloc, sandbox, &address)?;
        let site = site_under(alloc, &origin, list)?;
        Ok(Document {
            address,
            origin,
            site,
            sandbox,
            deny,
            flag: false,
            mark: None,
        })
    }
}

/// The site that a load of an address reaches: that of the address's origin, which is not made.
pub fn site_of_address(
    alloc: Global,
    address: &Address,
    list: &SuffixList,
) -> Result<Site, NoMemory>
    ensures site { let target = site_of_address list.now.rules (plain_address address.now) in
        IfOk result (λ site. plain_site site ≡ target) }
{
    let host = domain_of(address.host.as_str(), address.ip, list);
    Ok(Site {
        https: address.https,
        host: String::from_str(alloc, host)?,
    })
}

fn origin_under(
    alloc: Global,
    sandbox: Sandbox,
    address: &Address,
) -> Result<Option<Origin>, NoMemory>
    ensures { IfOk result (λ origin. option_map plain_origin origin
        ≡ origin_under (plain_sandbox sandbox) (plain_address address.now)) }
{
    if sandbox.same_origin {
        Ok(Some(address.origin(alloc)?))
    } else {
        Ok(None)
    }
}

fn site_under(
    alloc: Global,
    origin: &Option<Origin>,
    list: &SuffixList,
) -> Result<Option<Site>, NoMemory>
    ensures { IfOk result (λ site. plain_chain_site site
        ≡ option_map (site_of_origin list.now.rules) (option_map plain_origin origin.now)) }
{
    match origin {
        Some(origin) => Ok(Some(site_of(alloc, origin, list)?)),
        None => Ok(None),
    }
}

fn copy_of_origin(alloc: Global, origin: &Option<Origin>) -> Result<Option<Origin>, NoMemory>
    ensures { IfOk result (λ copy. option_map plain_origin copy
        ≡ option_map plain_origin origin.now) }
{
    match origin {
        Some(origin) => Ok(Some(origin.copy(alloc)?)),
        None => Ok(None),
    }
}

// A copy of the site of a document.
pub fn copy_of_site(alloc: Global, site: &Option<Site>) -> Result<Option<Site>, NoMemory>
    ensures { IfOk result (λ copy. plain_chain_site copy ≡ plain_chain_site site.now) }
{
    match site {
        Some(site) => Ok(Some(site.copy(alloc)?)),
        None => Ok(None),
    }
}

// Whether two documents have the same origin. An opaque one is the same as no other.
pub fn same_document_origin(a: Option<&Origin>, b: &Option<Origin>) -> bool
    ensures { result ≡ same_document_origin (option_map plain_origin (option_copied a.entry))
        (option_map plain_origin b.now) }
{
    match (a, b) {
        (Some(a), Some(b)) => same_origin(a, b),
        _ => false,
    }
}

// Whether an activation lasts still.
pub fn is_active_by(now: i64, mark: Option<i64>) -> bool
    ensures { result ≡ is_active_by now mark }
{
    match mark {
        Some(mark) => i128::from(now) < i128::from(mark) + 5,
        None => false,
    }
}
