//! The words of a line that are values of their own.

/// The method of a request.
#[derive(Debug, Clone, Copy, PartialEq, Eq)]
pub enum Method {
    Get,
    Head,
    Options,
    Post,
    Put,
    Delete,
    Patch,
}

/// What a user answers to a prompt.
#[derive(Debug, Clone, Copy, PartialEq, Eq)]
pub enum Prompt {
    Grant,
    Deny,
    /// The prompt is closed without an answer.
    Dismiss,
}
