use sqlite_items::Items;

/// The host at which a handler runs.
#[derive(Drop)]
pub struct Here {
    /// The host's number.
    pub me: u32,
    /// How many hosts there are.
    pub hosts: u32,
    /// The host's neighbours, rising.
    pub near: Items<u32>,
}
