use sqlite_items::Items;

/// What an expression gives.
#[derive(Clone, Copy, Debug)]
pub struct Value {
    /// The number.
    pub number: i64,
    /// The units of work that are left.
    pub left: u32,
}

/// What a list gives.
#[derive(Drop)]
pub struct Listed {
    /// The numbers of its members, in order.
    pub numbers: Items<i64>,
    /// The units of work that are left.
    pub left: u32,
}
