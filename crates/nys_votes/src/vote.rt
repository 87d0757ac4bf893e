//! One vote to deliver.

use nys_stmt::{Content, TagList};

/// What one maker voted to deliver, with the tags of its vote.
#[derive(Debug, Drop)]
pub struct Vote {
    pub content: Content,
    /// A tag for each of its receivers. The own vote of a host that is its only guard has none.
    pub tags: TagList,
}
