//! The lines of a local script.
ghost use Rattle.std.specs.Prelude.{◌≡◌, ◌++◌, IfOk, OnOk, map};
ghost use Rattle.std.specs.List.{All};
ghost use Rattle.item_lines.specs.Numbers.{IsInRange};
ghost use Rattle.item_lines.specs.Script.{items_text};
ghost use Rattle.local_scripts.specs.Items.{item_of};
ghost use Rattle.shown_scripts.specs.Lines.{IsTextOf};

use agent_base::NoMemory;
use item_lines::{print_end, print_item};
use local_scripts::Item;
use std::alloc::Global;
use twins::LocalScript;

/// The lines of a local script.
pub fn text_of(alloc: Global, script: &LocalScript) -> Result<Vec<u8>, NoMemory>
    ensures text { IfOk result (λ text. IsTextOf script.now text.items) }
{
    let mut text = Vec::new(alloc);
    put_items(&mut text, &script.entries)?;
    print_end(&mut text, &script.end)?;
    Ok(text)
}

// Puts the lines of items behind what stands in a buffer.
fn put_items(text: &mut Vec<u8>, items: &[Item]) -> Result<(), NoMemory>
    ensures lines { OnOk result
        (text.new.items ≡ text.old.items ++ items_text 0 (map item_of items.now)) }
    ensures range { OnOk result (All IsInRange (map item_of items.now)) }
{
    for (number, item) in items.iter().enumerate() {
        print_item(text, number as u64, item)?;
    }
    Ok(())
}
