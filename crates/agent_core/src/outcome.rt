//! What a line comes to.

use reply_lines::Reply;

/// What a line or a flush comes to.
#[derive(Debug, Drop)]
pub enum Outcome {
    /// The batch is in the store. These are the replies of its lines, in their order.
    Replies(Vec<Reply>),
    /// The line ran, and waits for the end of its batch.
    Held,
    /// A call of the disk failed, now or before. The line changed nothing.
    Down,
    /// A growth of memory was refused. The line changed nothing.
    NoMemory,
}
