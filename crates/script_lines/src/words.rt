//! The words of a line's members, as tables.
use script_actions::{Method, Prompt};
use storage_events::AreaKind;

/// The methods of a request.
pub const METHODS: [(&str, Method); 7] = [
    ("GET", Method::Get),
    ("HEAD", Method::Head),
    ("OPTIONS", Method::Options),
    ("POST", Method::Post),
    ("PUT", Method::Put),
    ("DELETE", Method::Delete),
    ("PATCH", Method::Patch),
];

/// The two areas of a document.
pub const AREAS: [(&str, AreaKind); 2] = [
    ("local", AreaKind::Local),
    ("session", AreaKind::Session),
];

/// Who loads a tab anew: whether it is the page, and not the user.
pub const LOADERS: [(&str, bool); 2] = [("user", false), ("page", true)];

/// Who navigates a frame: whether it is the frame itself, and not its parent.
pub const NAVIGATORS: [(&str, bool); 2] = [("parent", false), ("self", true)];

/// What a user answers to a prompt for access to unpartitioned cookies.
pub const ANSWERS: [(&str, Prompt); 3] = [
    ("grant", Prompt::Grant),
    ("deny", Prompt::Deny),
    ("dismiss", Prompt::Dismiss),
];

/// What a user answers to a prompt for persistent storage, which is not dismissed.
pub const CONSENTS: [(&str, Prompt); 2] = [("grant", Prompt::Grant), ("deny", Prompt::Deny)];
