//! Replies and lines of a site, counted.
ghost use Rattle.std.specs.Prelude.{◌≡◌, ◌<◌, ◌^◌, filter, length, map};
ghost use Rattle.origin_site.specs.Plain.{plain_site};
ghost use Rattle.reply_lines.specs.Plain.{reply_of};
ghost use Rattle.storage_key.specs.Context.{is_of};
ghost use Rattle.local_scripts.specs.Items.{item_of};
ghost use Rattle.script_courses.specs.Twins.{acknowledged_in};

use local_scripts::Item;
use origin_site::{Site, same_site};
use reply_lines::Reply;

/// How many of these replies are of a site.
pub fn replies_of(site: &Site, replies: &[Reply]) -> u64
    ensures count { result ≡ length (filter
        (λ reply. is_of (plain_site site.now) (reply_of reply).site) replies.now) }
{
    replies.iter().filter(|reply| is_of(site, reply)).count() as u64
}

fn is_of(site: &Site, reply: &Reply) -> bool
    ensures { result ≡ is_of (plain_site site.now) (reply_of reply.now).site }
{
    match &reply.site {
        Some(other) => same_site(site, other),
        None => false,
    }
}

/// How many replies were acknowledged, over all restarts among these items.
pub fn acknowledged(items: &[Item]) -> u64
    requires few { acknowledged_in (map item_of items.now) < 2 ^ 64 }
    ensures count { result ≡ acknowledged_in (map item_of items.now) }
{
    let mut count = 0;
    for item in items {
        if let Item::Restarts(restart) = item {
            count += restart.acknowledged;
        }
    }
    count
}
