//! What a reader of lines may rest on.
ghost use Rattle.item_lines.specs.Laws.{EndsDifferAsTheirLines, ItemsDifferAsTheirLines};
ghost use Rattle.item_lines.specs.Laws.{ScriptsDifferAsTheirTexts};

/// Two items of one number have the same line exactly where they are equal, and two local scripts
/// have the same text exactly where they are equal.
pub fn items_differ_as_their_lines_do()
    ensures items { ItemsDifferAsTheirLines }
    ensures ends { EndsDifferAsTheirLines }
    ensures scripts { ScriptsDifferAsTheirTexts }
{}
