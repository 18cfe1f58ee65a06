//! The members of a line, each by the kind of its field.
ghost use Rattle.std.specs.Prelude.{◌≡◌, ◌≤◌, ◌⊎◌, IfOk, IfSome, MatchResult, None, Some};
ghost use Rattle.std.specs.Prelude.{map, option_map, string_bytes};
ghost use Rattle.serde_json.specs.Find.{get};
ghost use Rattle.case_tables.specs.Rows.{row_of};
ghost use Rattle.origin_site.specs.Plain.{plain_address, plain_site};
ghost use Rattle.script_lines.specs.Flat.{data_of};
ghost use Rattle.script_lines.specs.JsonLine.{data_of_line};
ghost use Rattle.script_lines.specs.Fields as spec;
ghost use Rattle.script_lines.specs.Fields.{defaulted, field_of, given, required};
ghost use Rattle.script_lines.specs.Plain.{Reads, fault_of};
ghost use Rattle.script_lines.specs.Script as plain;
ghost use Rattle.script_lines.specs.Words.{word_of};

use crate::ScriptFault;
use crate::json_line::JsonLine;
use crate::json_value::JsonValue;
use case_tables::Cases;
use origin_site::{Address, AddressFault, Site, SiteFault};
use script_actions::boxed;
use std::alloc::Global;

/// The fault of this member, or want of memory for its name.
pub fn bad_field(alloc: Global, number: u32, name: &str) -> ScriptFault
    ensures { (result ≡ ScriptFault.NoMemory) ⊎ (fault_of result ≡ plain.BadField number name.now) }
{
    match String::from_str(alloc, name) {
        Ok(name) => ScriptFault::BadField(number, name),
        Err(_) => ScriptFault::NoMemory,
    }
}

/// A value of the right form, or the fault of a member of another form.
pub fn formed<T>(alloc: Global, number: u32, name: &str, value: Option<T>) -> Result<T, ScriptFault>
    ensures { MatchResult result (λ v. value ≡ Some v) (λ why. (value ≡ None)
        × ((why ≡ ScriptFault.NoMemory) ⊎ (fault_of why ≡ plain.BadField number name.now))) }
{
    match value {
        Some(value) => Ok(value),
        None => Err(bad_field(alloc, number, name)),
    }
}

// ---- words and truth values

/// A word of a table, or what stands for it where it is absent.
pub fn word<T: Copy>(
    alloc: Global,
    line: &JsonLine<'_>,
    number: u32,
    name: &str,
    words: &[(&'static str, T)],
    absent: Option<T>,
) -> Result<T, ScriptFault>
    ensures { Reads (λ v. v) (spec.formed number name.now
        (given (word_of (map row_of words.now)) absent
        (get name.now (data_of_line line.now)))) result }
{
    let value = match line.get(name) {
        Some(value) => word_in(words, value),
        None => absent,
    };
    formed(alloc, number, name, value)
}

fn word_in<T: Copy>(words: &[(&'static str, T)], value: JsonValue<'_>) -> Option<T>
    ensures { result ≡ word_of (map row_of words.now) (data_of value.entry) }
{
    match value.as_str() {
        Some(text) => Cases { rows: words }.find(text),
        None => None,
    }
}

/// A truth value, or what stands for it where it is absent.
pub fn truth(
    alloc: Global,
    line: &JsonLine<'_>,
    number: u32,
    name: &str,
    absent: bool,
) -> Result<bool, ScriptFault>
    ensures { let field = defaulted name.now spec.truth absent in
        Reads (λ b. b) (field_of number field (data_of_line line.now)) result }
{
    let value = match line.get(name) {
        Some(value) => value.as_bool(),
        None => Some(absent),
    };
    formed(alloc, number, name, value)
}

// ---- numbers

/// The number of a tab.
pub fn tab_number(
    alloc: Global,
    line: &JsonLine<'_>,
    number: u32,
    name: &str,
) -> Result<u16, ScriptFault>
    ensures { let field = required name.now (spec.whole 1 65535) in
        Reads (λ n. n) (field_of number field (data_of_line line.now)) result }
{
    Ok(whole(alloc, line, number, name, 1, 65535, None)? as u16)
}

/// The number of a tab, if there is one.
pub fn optional_tab(
    alloc: Global,
    line: &JsonLine<'_>,
    number: u32,
    name: &str,
) -> Result<Option<u16>, ScriptFault>
    ensures { let field = defaulted name.now (spec.optional (spec.whole 1 65535)) None in
        Reads (λ n. n) (field_of number field (data_of_line line.now)) result }
{
    match line.get(name) {
        Some(_) => Ok(Some(tab_number(alloc, line, number, name)?)),
        None => Ok(None),
    }
}

/// The number of a frame, from 0, or what stands for it where it is absent.
pub fn frame_number(
    alloc: Global,
    line: &JsonLine<'_>,
    number: u32,
    name: &str,
    absent: u8,
) -> Result<u8, ScriptFault>
    ensures { let field = defaulted name.now (spec.whole 0 255) absent in
        Reads (λ n. n) (field_of number field (data_of_line line.now)) result }
{
    Ok(whole(alloc, line, number, name, 0, 255, Some(absent as u64))? as u8)
}

/// The number of a frame that is not the top document.
pub fn inner_frame(
    alloc: Global,
    line: &JsonLine<'_>,
    number: u32,
    name: &str,
) -> Result<u8, ScriptFault>
    ensures { let field = required name.now (spec.whole 1 255) in
        Reads (λ n. n) (field_of number field (data_of_line line.now)) result }
{
    Ok(whole(alloc, line, number, name, 1, 255, None)? as u8)
}

/// A number from 0 to the last.
pub fn whole_number(
    alloc: Global,
    line: &JsonLine<'_>,
    number: u32,
    name: &str,
    last: u32,
) -> Result<u32, ScriptFault>
    ensures { let field = required name.now (spec.whole 0 last) in
        Reads (λ n. n) (field_of number field (data_of_line line.now)) result }
{
    Ok(whole(alloc, line, number, name, 0, last as u64, None)? as u32)
}

// A number within these bounds, or what stands for it where it is absent.
fn whole(
    alloc: Global,
    line: &JsonLine<'_>,
    number: u32,
    name: &str,
    first: u64,
    last: u64,
    absent: Option<u64>,
) -> Result<u64, ScriptFault>
    requires { IfSome absent (λ n. n ≤ last) }
    ensures value { Reads (λ n. n) (spec.formed number name.now
        (given (spec.meaning (spec.whole first last)) absent
        (get name.now (data_of_line line.now)))) result }
    ensures bound { IfOk result (λ n. n ≤ last) }
{
    let value = match line.get(name) {
        Some(value) => whole_in(value, first, last),
        None => absent,
    };
    formed(alloc, number, name, value)
}

// The number within these bounds that a value is.
fn whole_in(value: JsonValue<'_>, first: u64, last: u64) -> Option<u64>
    ensures value { result ≡ spec.meaning (spec.whole first last) (data_of value.entry) }
    ensures bound { IfSome result (λ n. n ≤ last) }
{
    match value.as_u64() {
        Some(n) if first <= n && n <= last => Some(n),
        _ => None,
    }
}

// ---- texts

/// Any text.
pub fn text(
    alloc: Global,
    line: &JsonLine<'_>,
    number: u32,
    name: &str,
) -> Result<String, ScriptFault>
    ensures { let field = required name.now spec.any_text in
        Reads string_bytes (field_of number field (data_of_line line.now)) result }
{
    let text = formed(
        alloc,
        number,
        name,
        line.get(name).and_then(JsonValue::as_str),
    )?;
    Ok(String::from_str(alloc, text)?)
}

/// Any text, if there is one.
pub fn optional_text(
    alloc: Global,
    line: &JsonLine<'_>,
    number: u32,
    name: &str,
) -> Result<Option<Box<String>>, ScriptFault>
    ensures { let field = defaulted name.now (spec.optional spec.any_text) None in
        Reads (option_map (λ text. string_bytes text.value))
        (field_of number field (data_of_line line.now)) result }
{
    match line.get(name) {
        Some(_) => Ok(Some(boxed(alloc, text(alloc, line, number, name)?)?)),
        None => Ok(None),
    }
}

/// The text of an address.
pub fn address(
    alloc: Global,
    line: &JsonLine<'_>,
    number: u32,
    name: &str,
) -> Result<Box<Address>, ScriptFault>
    ensures { let field = required name.now spec.address_text in
        Reads (λ a. plain_address a.value) (field_of number field (data_of_line line.now)) result }
{
    let text = formed(
        alloc,
        number,
        name,
        line.get(name).and_then(JsonValue::as_str),
    )?;
    match Address::read(alloc, text) {
        Ok(address) => Ok(boxed(alloc, address)?),
        Err(AddressFault::NoMemory) => Err(ScriptFault::NoMemory),
        Err(_) => Err(bad_field(alloc, number, name)),
    }
}

/// The text of a site.
pub fn site(
    alloc: Global,
    line: &JsonLine<'_>,
    number: u32,
    name: &str,
) -> Result<Site, ScriptFault>
    ensures { let field = required name.now spec.site_name in
        Reads plain_site (field_of number field (data_of_line line.now)) result }
{
    let text = formed(
        alloc,
        number,
        name,
        line.get(name).and_then(JsonValue::as_str),
    )?;
    match Site::read(alloc, text) {
        Ok(site) => Ok(site),
        Err(SiteFault::NoMemory) => Err(ScriptFault::NoMemory),
        Err(SiteFault::NotSite) => Err(bad_field(alloc, number, name)),
    }
}
