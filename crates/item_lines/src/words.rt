//! Words that stand in a line.
ghost use Rattle.std.specs.Prelude.{◌≡◌};
ghost use Rattle.reply_lines.specs.Reply as reply;
ghost use Rattle.local_scripts.specs.Items.{load_of};
ghost use Rattle.item_lines.specs.Words as spec;

use local_scripts::TopLoad;
use script_actions::{Method, Prompt};
use storage_events::AreaKind;

pub fn method_text(method: Method) -> &'static str
    ensures { result.now ≡ spec.method_text method }
{
    match method {
        Method::Get => "GET",
        Method::Head => "HEAD",
        Method::Options => "OPTIONS",
        Method::Post => "POST",
        Method::Put => "PUT",
        Method::Delete => "DELETE",
        Method::Patch => "PATCH",
    }
}

pub fn prompt_text(answer: Prompt) -> &'static str
    ensures { result.now ≡ spec.prompt_text answer }
{
    match answer {
        Prompt::Grant => "grant",
        Prompt::Deny => "deny",
        Prompt::Dismiss => "dismiss",
    }
}

pub fn navigator_text(by_self: bool) -> &'static str
    ensures { result.now ≡ spec.navigator_text by_self }
{
    if by_self { "self" } else { "parent" }
}

pub fn area_text(area: AreaKind) -> &'static str
    ensures { result.now ≡ reply.area_text area }
{
    match area {
        AreaKind::Local => "local",
        AreaKind::Session => "session",
    }
}

pub fn load_text(load: TopLoad) -> &'static str
    ensures { result.now ≡ spec.load_text (load_of load) }
{
    match load {
        TopLoad::Opens => "open",
        TopLoad::Goes => "go",
    }
}
