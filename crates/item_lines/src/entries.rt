//! Entries and restarts, each as an object of JSON.
ghost use Rattle.std.specs.Prelude.{◌≡◌, map, option_map, option_to_list, true};
ghost use Rattle.serde_json.specs.Data.{object};
ghost use Rattle.origin_site.specs.Plain.{plain_address};
ghost use Rattle.script_actions.specs.Plain.{action_of, head_field_of};
ghost use Rattle.agent_model.specs.SiteEvent as event;
ghost use Rattle.local_scripts.specs.Items.{acted, entry_of, held_of, item_of, load_of};
ghost use Rattle.local_scripts.specs.Lines.{is_of_document};
ghost use Rattle.local_scripts.specs.declared.item.Item.TheVariants as item;
ghost use Rattle.item_lines.specs.Item as spec;
ghost use Rattle.item_lines.specs.Parts.{addressed, held_data};
ghost use Rattle.item_lines.specs.Members.{PutsLast, PutsValue, act_members, address_in};
ghost use Rattle.item_lines.specs.Members.{arrival_members, line_in};
ghost use Rattle.unwinding.specs.LocalScript.{Happens};

use crate::addresses::put_address;
use crate::cookies::put_held;
use crate::heads::put_head;
use crate::lines::put_line;
use crate::numbers::put_number;
use crate::words::{load_text, method_text};
use agent_base::NoMemory;
use json::Writer;
use local_scripts::{Entry, HeldJar, Item, Restart, SiteEvent, TopLoad};
use origin_site::Address;
use row_lines::members::{begin, end, put_text, put_truth};
use script_actions::{Action, HeadField, Method};

pub fn put_item(writer: &mut Writer, number: u64, item: &Item) -> Result<(), NoMemory>
    ensures { PutsValue result writer.old writer.new (spec.item_data number (item_of item.now)) }
{
    match item {
        Item::Happens(entry) => put_entry(writer, number, entry),
        Item::Restarts(restart) => put_restart(writer, number, restart),
    }
}

fn put_restart(writer: &mut Writer, number: u64, restart: &Restart) -> Result<(), NoMemory>
    ensures { PutsValue result writer.old writer.new
        (spec.item_data number (item_of (item.Restarts restart.now))) }
{
    begin(writer)?;
    put_number(writer, "acknowledged", restart.acknowledged)?;
    put_text(writer, "end", "restart")?;
    put_number(writer, "entry", number)?;
    put_number(writer, "kept", restart.kept)?;
    put_number(writer, "moment", restart.moment)?;
    end(writer)
}

pub fn put_end(writer: &mut Writer, restart: &Restart) -> Result<(), NoMemory>
    ensures { PutsValue result writer.old writer.new
        (spec.end_data (item_of (item.Restarts restart.now))) }
{
    begin(writer)?;
    put_number(writer, "acknowledged", restart.acknowledged)?;
    put_text(writer, "end", "run")?;
    put_number(writer, "kept", restart.kept)?;
    put_number(writer, "moment", restart.moment)?;
    end(writer)
}

fn put_entry(writer: &mut Writer, number: u64, entry: &Entry) -> Result<(), NoMemory>
    ensures { PutsValue result writer.old writer.new
        (spec.item_data number (Happens (entry_of entry.now))) }
{
    let moment = entry.moment;
    let held = &entry.held;
    match &entry.event {
        SiteEvent::Acts(line) => put_acts(writer, number, moment, held, &line.action),
        SiteEvent::Arrives {
            load,
            tab,
            url,
            method,
            same_site,
            head,
        } => put_arrives(
            writer, number, moment, held, *load, *tab, url, *method, *same_site, head,
        ),
        SiteEvent::Leaves { tab } => put_of_tab(writer, number, moment, held, "leaves", *tab),
        SiteEvent::Copies { from, to } => put_copies(writer, number, moment, held, *from, *to),
        SiteEvent::Closes { tab } => put_of_tab(writer, number, moment, held, "closes", *tab),
        SiteEvent::Evicts => put_evicts(writer, number, moment, held),
    }
}

fn put_acts(
    writer: &mut Writer,
    number: u64,
    moment: u64,
    held: &Option<HeldJar>,
    action: &Action,
) -> Result<(), NoMemory>
    requires document { is_of_document (action_of action.now) ≡ true }
    ensures { let held = held_data (map held_of (option_to_list held.now)) in
        PutsValue result writer.old writer.new
        (object (spec.event_members number moment held (acted (action_of action.now)))) }
{
    begin(writer)?;
    match address(action) {
        Some(url) => put_act_at(writer, number, moment, held, action, url),
        None => put_act(writer, number, moment, held, action),
    }
}

// The address that an action of a document names, if it names one.
fn address(action: &Action) -> Option<&Address>
    ensures { option_map (λ url. plain_address url.now) result ≡ address_in (action_of action.now) }
{
    match action {
        Action::Frame { url, .. } | Action::Nav { url, .. } | Action::Fetch { url, .. } => Some(
            url,
        ),
        _ => None,
    }
}

// The members of an action that names an address, and the end of the object.
fn put_act_at(
    writer: &mut Writer,
    number: u64,
    moment: u64,
    held: &Option<HeldJar>,
    action: &Action,
    url: &Address,
) -> Result<(), NoMemory>
    requires document { is_of_document (action_of action.now) ≡ true }
    ensures { let held = held_data (map held_of (option_to_list held.now)) in
        PutsLast result writer.old writer.new
        (addressed (Some (plain_address url.now))
        (act_members number moment held (line_in (action_of action.now)))) }
{
    put_address(writer, url)?;
    put_act(writer, number, moment, held, action)
}

// The members of an action behind its address, and the end of the object.
fn put_act(
    writer: &mut Writer,
    number: u64,
    moment: u64,
    held: &Option<HeldJar>,
    action: &Action,
) -> Result<(), NoMemory>
    requires document { is_of_document (action_of action.now) ≡ true }
    ensures { let held = held_data (map held_of (option_to_list held.now)) in
        PutsLast result writer.old writer.new
        (act_members number moment held (line_in (action_of action.now))) }
{
    put_number(writer, "entry", number)?;
    put_text(writer, "event", "acts")?;
    put_held(writer, held)?;
    put_line(writer, action)?;
    put_number(writer, "moment", moment)?;
    end(writer)
}

fn put_arrives(
    writer: &mut Writer,
    number: u64,
    moment: u64,
    held: &Option<HeldJar>,
    load: TopLoad,
    tab: u16,
    url: &Address,
    method: Method,
    same_site: bool,
    head: &[HeadField],
) -> Result<(), NoMemory>
    ensures { let held = held_data (map held_of (option_to_list held.now)) in
        let arrives = event.Arrives (load_of load) tab (plain_address url.now) method same_site
        (map head_field_of head.now) in
        PutsValue result writer.old writer.new
        (object (spec.event_members number moment held arrives)) }
{
    begin(writer)?;
    put_address(writer, url)?;
    put_number(writer, "entry", number)?;
    put_text(writer, "event", "arrives")?;
    put_head(writer, head)?;
    put_held(writer, held)?;
    put_text(writer, "load", load_text(load))?;
    put_arrival(writer, moment, tab, url, method, same_site)
}

// The members of an arrival from its method on, and the end of the object.
fn put_arrival(
    writer: &mut Writer,
    moment: u64,
    tab: u16,
    url: &Address,
    method: Method,
    same_site: bool,
) -> Result<(), NoMemory>
    ensures { PutsLast result writer.old writer.new
        (arrival_members moment method same_site tab (plain_address url.now)) }
{
    put_text(writer, "method", method_text(method))?;
    put_number(writer, "moment", moment)?;
    put_truth(writer, "same_site", same_site)?;
    put_number(writer, "tab", tab as u64)?;
    put_text(writer, "url", url.text.as_str())?;
    end(writer)
}

// An event that has no more than its tab.
fn put_of_tab(
    writer: &mut Writer,
    number: u64,
    moment: u64,
    held: &Option<HeldJar>,
    name: &str,
    tab: u16,
) -> Result<(), NoMemory>
    ensures { let held = held_data (map held_of (option_to_list held.now)) in
        PutsValue result writer.old writer.new
        (object (spec.tab_members name.now number moment held tab)) }
{
    begin(writer)?;
    put_number(writer, "entry", number)?;
    put_text(writer, "event", name)?;
    put_held(writer, held)?;
    put_number(writer, "moment", moment)?;
    put_number(writer, "tab", tab as u64)?;
    end(writer)
}

fn put_copies(
    writer: &mut Writer,
    number: u64,
    moment: u64,
    held: &Option<HeldJar>,
    from: u16,
    to: u16,
) -> Result<(), NoMemory>
    ensures { let held = held_data (map held_of (option_to_list held.now)) in
        PutsValue result writer.old writer.new
        (object (spec.event_members number moment held (event.Copies from to))) }
{
    begin(writer)?;
    put_number(writer, "entry", number)?;
    put_text(writer, "event", "copies")?;
    put_number(writer, "from", from as u64)?;
    put_held(writer, held)?;
    put_number(writer, "moment", moment)?;
    put_number(writer, "to", to as u64)?;
    end(writer)
}

fn put_evicts(
    writer: &mut Writer,
    number: u64,
    moment: u64,
    held: &Option<HeldJar>,
) -> Result<(), NoMemory>
    ensures { let held = held_data (map held_of (option_to_list held.now)) in
        PutsValue result writer.old writer.new
        (object (spec.event_members number moment held event.Evicts)) }
{
    begin(writer)?;
    put_number(writer, "entry", number)?;
    put_text(writer, "event", "evicts")?;
    put_held(writer, held)?;
    put_number(writer, "moment", moment)?;
    end(writer)
}
