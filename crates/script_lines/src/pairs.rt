//! Lists of pairs of texts, as heads are, read token by token.
ghost use Rattle.std.specs.Prelude.{◌≡◌, ◌<◌, ◌∷◌, IfOk, IfSome, Some, length};
ghost use Rattle.json.specs.Json.{items, value};
ghost use Rattle.json.specs.Token.{Token as SpecToken};
ghost use Rattle.serde_json.specs.Read.{converted, of_items, of_json};
ghost use Rattle.serde_json.specs.View.{view};
ghost use Rattle.script_lines.specs.Flat.{items_of_pairs, pair_data, pairs_data};

use agent_base::NoMemory;
use json::{Reader, Token};
use serde_json::Value;
use std::alloc::Global;

/// A list of two texts.
#[derive(Clone, Copy)]
pub struct Pair<'a> {
    pub name: &'a str,
    pub value: &'a str,
}

/// The pairs of a list behind its opening bracket. There are none where an item has another form,
/// or where memory is wanting.
pub fn read_pairs<'a>(alloc: Global, reader: &mut Reader<'a>) -> Option<Vec<Pair<'a>>>
    ensures { IfSome result (λ list.
        converted of_items (items (value 125) (length reader.old) reader.old)
        ≡ Some (items_of_pairs list.items, reader.new)) }
{
    let mut found = Vec::new(alloc);
    'pairs: loop {
        if reader.take_end_array() {
            return Some(found);
        }
        let pair = read_pair(reader)?;
        if found.push(pair).is_err() {
            return None;
        }
    }
}

fn read_pair<'a>(reader: &mut Reader<'a>) -> Option<Pair<'a>>
    ensures value { IfSome result
        (λ pair. converted of_json (value 125 reader.old) ≡ Some (pair_data pair, reader.new)) }
    ensures shorter { IfSome result (λ _. length reader.new < length reader.old) }
{
    let Some(Token::BeginArray) = reader.next() else {
        return None;
    };
    let name = read_text(reader)?;
    let value = read_text(reader)?;
    if reader.take_end_array() {
        Some(Pair { name, value })
    } else {
        None
    }
}

fn read_text<'a>(reader: &mut Reader<'a>) -> Option<&'a str>
    ensures { IfSome result (λ text. reader.old ≡ SpecToken.string text.now ∷ reader.new) }
{
    match reader.next() {
        Some(Token::String(text)) => Some(text),
        _ => None,
    }
}

/// These pairs as a tree.
pub fn tree_of_pairs(alloc: Global, pairs: &[Pair<'_>]) -> Result<Value, NoMemory>
    ensures { IfOk result (λ tree. view tree ≡ pairs_data pairs.now) }
{
    let mut items = Vec::new(alloc);
    for pair in pairs {
        if items.push(tree_of_pair(alloc, pair)?).is_err() {
            return Err(NoMemory);
        }
    }
    Ok(Value::Array(items))
}

fn tree_of_pair(alloc: Global, pair: &Pair<'_>) -> Result<Value, NoMemory>
    ensures { IfOk result (λ tree. view tree ≡ pair_data pair.now) }
{
    let name = Value::String(String::from_str(alloc, pair.name)?);
    let value = Value::String(String::from_str(alloc, pair.value)?);
    match vec![in alloc; name, value] {
        Ok(texts) => Ok(Value::Array(texts)),
        Err(_) => Err(NoMemory),
    }
}
