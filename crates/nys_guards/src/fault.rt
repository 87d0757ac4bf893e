//! What is wrong with the guards of an epoch.

/// Why a guard graph is not good: the first fault, hosts before links.
#[derive(Clone, Copy, Debug, PartialEq, Eq)]
pub enum GuardFault {
    /// The host is not its own guard.
    NotOwn(u32),
    /// The host, its guards, the guards it needs.
    TooFew(u32, u32, u32),
    /// The host, the credit, its neighbours, of which there are more.
    CreditTooSmall(u32, u32, u32),
    /// The lower and the higher host of a link, the guards they share, the guards they need to share.
    ShareTooFew(u32, u32, u32, u32),
}

/// The lowest host that has more liars among its guards than its threshold, and how many.
#[derive(Clone, Copy, Debug, PartialEq, Eq)]
pub struct TooMany(pub u32, pub u32);
