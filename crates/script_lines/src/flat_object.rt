//! Objects of the form that most lines have: texts, whole numbers, truth values and lists of pairs
//! of texts alone.
//!
//! Their tokens are read one after another, and no tree of values is made.
ghost use Rattle.std.specs.Prelude.{◌≡◌, ◌<◌, ◌==◌, IfOk, IfSome, Some, false, length, slice_index};
ghost use Rattle.std.specs.Prelude.{option_map};
ghost use Rattle.json.specs.Json.{members, value};
ghost use Rattle.serde_json.specs.Data.{no_members, object, unsigned};
ghost use Rattle.serde_json.specs.Find.{get_member};
ghost use Rattle.serde_json.specs.Read.{converted, number_from, number_of, of_json, of_members, read};
ghost use Rattle.serde_json.specs.View.{view};
ghost use Rattle.script_lines.specs.Flat.{data_of, flat_data, members_of};

use crate::json_value::JsonValue;
use crate::pairs::{Pair, read_pairs, tree_of_pairs};
use agent_base::NoMemory;
use fast_float::Numeral;
use json::{Reader, Scratch, Token};
use serde_json::{Map, Value, put};
use std::alloc::Global;

/// The value of a member that is read token by token.
#[derive(Drop)]
pub enum FlatValue<'a> {
    Text(&'a str),
    Whole(u64),
    Truth(bool),
    Pairs(Vec<Pair<'a>>),
}

/// A member: its name and its value, which is no tree.
#[derive(Drop)]
pub struct Member<'a> {
    pub name: &'a str,
    pub value: FlatValue<'a>,
}

impl FlatValue<'_> {
    fn shown(&self) -> JsonValue<'_>
        ensures { data_of result ≡ flat_data self.now }
    {
        match self {
            FlatValue::Text(text) => JsonValue::Text(text),
            FlatValue::Whole(number) => JsonValue::Whole(*number),
            FlatValue::Truth(truth) => JsonValue::Truth(*truth),
            FlatValue::Pairs(pairs) => JsonValue::Pairs(pairs),
        }
    }
}

/// The value of the last member of this name.
pub fn last_named<'a>(members: &'a Vec<Member<'_>>, name: &str) -> Option<JsonValue<'a>>
    ensures { option_map data_of result ≡ get_member name.now (members_of members.now.items) }
{
    let mut left = members.len();
    while left > 0 {
        left -= 1;
        let member = &members[left];
        if member.name == name {
            return Some(member.value.shown());
        }
    }
    None
}

/// These members as a tree.
pub fn tree_of(alloc: Global, members: &[Member<'_>]) -> Result<Value, NoMemory>
    ensures { IfOk result (λ tree. view tree ≡ object (members_of members.now)) }
{
    let mut tree = Map::new(alloc);
    for member in members {
        let value = owned(alloc, &member.value)?;
        put(&mut tree, alloc, member.name, value)?;
    }
    Ok(Value::Object(tree))
}

fn owned(alloc: Global, value: &FlatValue<'_>) -> Result<Value, NoMemory>
    ensures { IfOk result (λ tree. view tree ≡ flat_data value.now) }
{
    match value {
        FlatValue::Text(text) => Ok(Value::String(String::from_str(alloc, text)?)),
        FlatValue::Whole(number) => Ok(Value::from(*number)),
        FlatValue::Truth(truth) => Ok(Value::Bool(*truth)),
        FlatValue::Pairs(pairs) => tree_of_pairs(alloc, pairs),
    }
}

/// The members of the object that a text is, in their order. There are none where it has another
/// form, or where memory is wanting.
pub fn read_object<'a>(
    alloc: Global,
    text: &'a str,
    scratch: &'a mut Scratch,
) -> Option<Vec<Member<'a>>>
    ensures { IfSome result (λ list. read text.now ≡ Some (object (members_of list.items))) }
{
    let Ok(mut reader) = Reader::new(text, scratch) else {
        return None;
    };
    let Some(Token::BeginObject) = reader.next() else {
        return None;
    };
    let members = read_members(alloc, &mut reader)?;
    if reader.next().is_some() {
        return None;
    }
    Some(members)
}

fn read_members<'a>(alloc: Global, reader: &mut Reader<'a>) -> Option<Vec<Member<'a>>>
    ensures { IfSome result (λ list.
        converted (λ ms. of_members ms no_members)
        (members (value 126) (length reader.old) reader.old)
        ≡ Some (members_of list.items, reader.new)) }
{
    let mut found = Vec::new(alloc);
    'members: loop {
        match reader.next_key() {
            Ok(Some(name)) => {
                let value = read_value(alloc, reader)?;
                if found.push(Member { name, value }).is_err() {
                    return None;
                }
            }
            Ok(None) => return Some(found),
            Err(_) => return None,
        }
    }
}

fn read_value<'a>(alloc: Global, reader: &mut Reader<'a>) -> Option<FlatValue<'a>>
    ensures value { IfSome result
        (λ v. converted of_json (value 126 reader.old) ≡ Some (flat_data v, reader.new)) }
    ensures shorter { IfSome result (λ _. length reader.new < length reader.old) }
{
    let Some(token) = reader.next() else {
        return None;
    };
    match token {
        Token::String(text) => Some(FlatValue::Text(text)),
        Token::Number(text) => match whole_number(text) {
            Some(number) => Some(FlatValue::Whole(number)),
            None => None,
        },
        Token::Bool(truth) => Some(FlatValue::Truth(truth)),
        Token::BeginArray => Some(FlatValue::Pairs(read_pairs(alloc, reader)?)),
        _ => None,
    }
}

// The number that a token writes in digits alone, where it has 64 bits.
fn whole_number(text: &str) -> Option<u64>
    ensures { IfSome result (λ n. number_of text.now ≡ Some (unsigned n)) }
{
    let bytes = text.as_bytes();
    if has_minus(bytes) {
        None
    } else {
        digits_of(&Numeral::scan(bytes))
    }
}

fn has_minus(bytes: &[u8]) -> bool
    ensures { result ≡ (slice_index bytes.now 0 == 45) }
{
    !bytes.is_empty() && bytes[0] == b'-'
}

fn digits_of(numeral: &Numeral<'_>) -> Option<u64>
    ensures { IfSome result (λ n. number_from false numeral.now ≡ Some (unsigned n)) }
{
    numeral.to_u64()
}
