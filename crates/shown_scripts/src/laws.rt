//! What a reader of the lines may rest on.
ghost use Rattle.shown_scripts.specs.Laws.{ShowsAsGiven};

use item_lines::items_differ_as_their_lines_do;

/// The texts that are shown of two scripts are equal exactly where the scripts give the site the
/// same local script.
pub fn shown_texts_differ_as_local_scripts_do()
    ensures given { ShowsAsGiven }
{
    items_differ_as_their_lines_do();
}
