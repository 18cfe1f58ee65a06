//! The bodies of replies, each as an object of JSON behind a line.
ghost use Rattle.std.specs.Prelude.{◌≡◌, ◌++◌, ◌∷◌, [], OnOk, codes, map, option_copied};
ghost use Rattle.std.specs.Prelude.{option_map, string_bytes};
ghost use Rattle.json.specs.Print.{quoted};
ghost use Rattle.serde_json.specs.Data.{object};
ghost use Rattle.serde_json.specs.Written.{compact_text};
ghost use Rattle.origin_site.specs.Plain.{plain_site};
ghost use Rattle.origin_site.specs.Site.{site_text};
ghost use Rattle.storage_events.specs.Event.{plain_event};
ghost use Rattle.reply_lines.specs.Reply.{reply_members, site_data};
ghost use Rattle.reply_lines.specs.Reply as spec;

use crate::json_text::{put, put_integer, put_number, put_string, put_string_or_null};
use crate::plain_texts::is_plain;
use crate::printed_lists::{put_events, put_texts};
use crate::reply::QUOTA;
use agent_base::NoMemory;
use origin_site::Site;
use storage_events::Event;

#[tactic(auto, unfolding(serde_json::proofs::OnLiterals::serde_json_on_literals))]
pub fn put_plain(
    line: &mut Vec<u8>,
    name: &str,
    site: &Option<Site>,
    is: &str,
) -> Result<(), NoMemory>
    ensures { let there = site_data (option_map plain_site site.now) in
        OnOk result (line.new.items ≡ line.old.items
        ++ compact_text (object (reply_members name.now there (spec.Plain is.now)))) }
{
    put_string(line, "{\"do\":", name)?;
    put_string(line, ",\"is\":", is)?;
    put_site(line, site)?;
    put(line, "}")
}

#[tactic(auto, unfolding(serde_json::proofs::OnLiterals::serde_json_on_literals))]
pub fn put_now(
    line: &mut Vec<u8>,
    name: &str,
    site: &Option<Site>,
    now: i64,
) -> Result<(), NoMemory>
    ensures { let there = site_data (option_map plain_site site.now) in
        OnOk result (line.new.items ≡ line.old.items
        ++ compact_text (object (reply_members name.now there (spec.Now now)))) }
{
    put_head(line, name)?;
    put_integer(line, ",\"now\":", now)?;
    put_site(line, site)?;
    put(line, "}")
}

#[tactic(auto, unfolding(serde_json::proofs::OnLiterals::serde_json_on_literals))]
pub fn put_kept(
    line: &mut Vec<u8>,
    name: &str,
    site: &Option<Site>,
    kept: u64,
) -> Result<(), NoMemory>
    ensures { let there = site_data (option_map plain_site site.now) in
        OnOk result (line.new.items ≡ line.old.items
        ++ compact_text (object (reply_members name.now there (spec.Kept kept)))) }
{
    put_head(line, name)?;
    put_number(line, ",\"kept\":", kept)?;
    put_site(line, site)?;
    put(line, "}")
}

#[tactic(auto, unfolding(serde_json::proofs::OnLiterals::serde_json_on_literals))]
pub fn put_load(
    line: &mut Vec<u8>,
    name: &str,
    site: &Option<Site>,
    cookie: &Option<String>,
    set: &[&str],
) -> Result<(), NoMemory>
    ensures { let there = site_data (option_map plain_site site.now) in
        let body = spec.Load (option_map string_bytes cookie.now) (map (λ t. t.now) set.now) in
        OnOk result (line.new.items ≡ line.old.items
        ++ compact_text (object (reply_members name.now there body))) }
{
    put_string_or_null(line, "{\"cookie\":", borrowed(cookie))?;
    put_string(line, ",\"do\":", name)?;
    put(line, ",\"is\":\"ok\",\"set\":")?;
    put_texts(line, set)?;
    put_site(line, site)?;
    put(line, "}")
}

#[tactic(auto, unfolding(serde_json::proofs::OnLiterals::serde_json_on_literals))]
pub fn put_text(
    line: &mut Vec<u8>,
    name: &str,
    site: &Option<Site>,
    value: &Option<String>,
) -> Result<(), NoMemory>
    ensures { let there = site_data (option_map plain_site site.now) in
        let body = spec.Text (option_map string_bytes value.now) in
        OnOk result (line.new.items ≡ line.old.items
        ++ compact_text (object (reply_members name.now there body))) }
{
    put_head(line, name)?;
    put_site(line, site)?;
    put_string_or_null(line, ",\"value\":", borrowed(value))?;
    put(line, "}")
}

#[tactic(auto, unfolding(serde_json::proofs::OnLiterals::serde_json_on_literals))]
pub fn put_count(
    line: &mut Vec<u8>,
    name: &str,
    site: &Option<Site>,
    value: u64,
) -> Result<(), NoMemory>
    ensures { let there = site_data (option_map plain_site site.now) in
        OnOk result (line.new.items ≡ line.old.items
        ++ compact_text (object (reply_members name.now there (spec.Number value)))) }
{
    put_head(line, name)?;
    put_site(line, site)?;
    put_number(line, ",\"value\":", value)?;
    put(line, "}")
}

#[tactic(auto, unfolding(serde_json::proofs::OnLiterals::serde_json_on_literals))]
pub fn put_truth(
    line: &mut Vec<u8>,
    name: &str,
    site: &Option<Site>,
    value: bool,
) -> Result<(), NoMemory>
    ensures { let there = site_data (option_map plain_site site.now) in
        OnOk result (line.new.items ≡ line.old.items
        ++ compact_text (object (reply_members name.now there (spec.Truth value)))) }
{
    put_head(line, name)?;
    put_site(line, site)?;
    put(
        line,
        if value {
            ",\"value\":true}"
        } else {
            ",\"value\":false}"
        },
    )
}

#[tactic(auto, unfolding(serde_json::proofs::OnLiterals::serde_json_on_literals))]
pub fn put_events_body(
    line: &mut Vec<u8>,
    name: &str,
    site: &Option<Site>,
    events: &[Event],
    lost: u32,
) -> Result<(), NoMemory>
    ensures { let there = site_data (option_map plain_site site.now) in
        let body = spec.Events (map plain_event events.now) lost in
        OnOk result (line.new.items ≡ line.old.items
        ++ compact_text (object (reply_members name.now there body))) }
{
    put_string(line, "{\"do\":", name)?;
    put(line, ",\"events\":")?;
    put_events(line, events)?;
    put_number(line, ",\"is\":\"ok\",\"lost\":", lost as u64)?;
    put_site(line, site)?;
    put(line, "}")
}

#[tactic(auto, unfolding(serde_json::proofs::OnLiterals::serde_json_on_literals))]
pub fn put_cookie(
    line: &mut Vec<u8>,
    name: &str,
    site: &Option<Site>,
    cookie: &str,
) -> Result<(), NoMemory>
    ensures { let there = site_data (option_map plain_site site.now) in
        OnOk result (line.new.items ≡ line.old.items
        ++ compact_text (object (reply_members name.now there (spec.Cookie cookie.now)))) }
{
    put_string(line, "{\"cookie\":", cookie)?;
    put_string(line, ",\"do\":", name)?;
    put(line, ",\"is\":\"ok\"")?;
    put_site(line, site)?;
    put(line, "}")
}

#[tactic(auto, unfolding(serde_json::proofs::OnLiterals::serde_json_on_literals))]
pub fn put_set_one(
    line: &mut Vec<u8>,
    name: &str,
    site: &Option<Site>,
    set: &str,
) -> Result<(), NoMemory>
    ensures { let there = site_data (option_map plain_site site.now) in
        OnOk result (line.new.items ≡ line.old.items
        ++ compact_text (object (reply_members name.now there (spec.SetOne set.now)))) }
{
    put_head(line, name)?;
    put(line, ",\"set\":")?;
    put_texts(line, &[set])?;
    put_site(line, site)?;
    put(line, "}")
}

#[tactic(auto, unfolding(serde_json::proofs::OnLiterals::serde_json_on_literals))]
pub fn put_estimate(
    line: &mut Vec<u8>,
    name: &str,
    site: &Option<Site>,
    usage: u64,
) -> Result<(), NoMemory>
    ensures { let there = site_data (option_map plain_site site.now) in
        OnOk result (line.new.items ≡ line.old.items
        ++ compact_text (object (reply_members name.now there (spec.Estimate usage)))) }
{
    put_head(line, name)?;
    put_number(line, ",\"quota\":", QUOTA)?;
    put_site(line, site)?;
    put_number(line, ",\"usage\":", usage)?;
    put(line, "}")
}

#[tactic(auto, unfolding(serde_json::proofs::OnLiterals::serde_json_on_literals))]
pub fn put_cleared(
    line: &mut Vec<u8>,
    name: &str,
    site: &Option<Site>,
    cleared: u32,
) -> Result<(), NoMemory>
    ensures { let there = site_data (option_map plain_site site.now) in
        OnOk result (line.new.items ≡ line.old.items
        ++ compact_text (object (reply_members name.now there (spec.Cleared cleared)))) }
{
    put_number(line, "{\"cleared\":", cleared as u64)?;
    put_string(line, ",\"do\":", name)?;
    put(line, ",\"is\":\"ok\"")?;
    put_site(line, site)?;
    put(line, "}")
}

// The beginning of most replies that answer `ok`.
fn put_head(line: &mut Vec<u8>, name: &str) -> Result<(), NoMemory>
    ensures { OnOk result (line.new.items
        ≡ line.old.items ++ (codes "{\"do\":" ++ (quoted name.now ++ codes ",\"is\":\"ok\""))) }
{
    put_string(line, "{\"do\":", name)?;
    put(line, ",\"is\":\"ok\"")
}

// The member `site`.
fn put_site(line: &mut Vec<u8>, site: &Option<Site>) -> Result<(), NoMemory>
    ensures { OnOk result (line.new.items ≡ line.old.items
        ++ (codes ",\"site\":" ++ compact_text (site_data (option_map plain_site site.now)))) }
{
    match site {
        Some(site) => put_site_text(line, site),
        None => put(line, ",\"site\":null"),
    }
}

// A host that needs no escape is put as it is, and no text of the site is made.
fn put_site_text(line: &mut Vec<u8>, site: &Site) -> Result<(), NoMemory>
    ensures { OnOk result (line.new.items
        ≡ line.old.items ++ (codes ",\"site\":" ++ quoted (site_text (plain_site site.now)))) }
{
    if is_plain(site.host.as_str()) {
        put_plain_site(line, site)
    } else {
        let text = site.text(*line.allocator())?;
        put_string(line, ",\"site\":", text.as_str())
    }
}

fn put_plain_site(line: &mut Vec<u8>, site: &Site) -> Result<(), NoMemory>
    ensures { OnOk result (line.new.items ≡ line.old.items
        ++ (codes ",\"site\":" ++ 34 ∷ (site_text (plain_site site.now) ++ 34 ∷ []))) }
{
    if site.https {
        put(line, ",\"site\":\"https://")?;
    } else {
        put(line, ",\"site\":\"http://")?;
    }
    put(line, site.host.as_str())?;
    put(line, "\"")
}

// A text that is owned, if there is one.
fn borrowed(text: &Option<String>) -> Option<&str>
    ensures { option_copied result ≡ option_map string_bytes text.now }
{
    match text {
        Some(text) => Some(text.as_str()),
        None => None,
    }
}
