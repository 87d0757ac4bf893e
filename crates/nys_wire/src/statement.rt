//! A statement, read in place.

ghost use Rattle.std.specs.Prelude.{◌≡◌, ◌≤◌, length, IfOk};
ghost use Rattle.nys_stmt.specs.Records.{carried_bytes, payload_in, payload_within};
ghost use Rattle.nys_stmt.specs.Spelling.{body_bytes, content_bytes, spelling};
ghost use Rattle.nys_wire.specs.Heads.{head_of, head_with, message_in, message_of};
ghost use Rattle.nys_wire.specs.Shown.{body_shown, content_shown, statement_shown};

use crate::head::Head;
use crate::kind::Kind;
use crate::opening::LengthsRef;
use crate::payload::PayloadRef;
use nys_bytes::NoMemory;
use nys_stmt::{Body, Content, DIGEST_LEN, FilledKind, Statement};
use std::alloc::Global;

/// A content, its payload where it lies.
#[derive(Drop)]
pub enum ContentRef<'a> {
    External {
        payload: PayloadRef<'a>,
    },
    Message {
        p: u32,
        k: u32,
        payload: PayloadRef<'a>,
    },
}

/// What a statement says, its payload or lengths where they lie.
#[derive(Drop)]
pub enum BodyRef<'a> {
    Filled {
        kind: FilledKind,
        h: u32,
        slot: u32,
        content: ContentRef<'a>,
    },
    Attest {
        p: u32,
        h: u32,
        k: u32,
        payload: PayloadRef<'a>,
    },
    Ask {
        h: u32,
        slot: u32,
    },
    Wedge,
    Frozen {
        h: u32,
        slot: u32,
    },
    Open {
        lengths: LengthsRef<'a>,
    },
}

/// A statement, its payload or lengths where they lie.
#[derive(Drop)]
pub struct StatementRef<'a> {
    pub epoch: u32,
    pub body: BodyRef<'a>,
}

impl<'a> ContentRef<'a> {
    /// How many bytes it has in a statement.
    fn size(&self) -> usize
        ensures size { result ≡ length (content_bytes (content_shown self.now)) }
        ensures small { result ≤ 36 }
    {
        match self {
            ContentRef::External { .. } => 1 + DIGEST_LEN,
            ContentRef::Message { .. } => 4 + DIGEST_LEN,
        }
    }

    /// Its payload.
    fn payload(&self) -> &PayloadRef<'a>
        ensures { result.now ≡ payload_within (content_shown self.now) }
    {
        match self {
            ContentRef::External { payload } => payload,
            ContentRef::Message { payload, .. } => payload,
        }
    }

    /// The sender and the number of a message.
    fn message(&self) -> Option<(u32, u32)>
        ensures { result ≡ message_in (content_shown self.now) }
    {
        match self {
            ContentRef::External { .. } => None,
            ContentRef::Message { p, k, .. } => Some((*p, *k)),
        }
    }

    /// The content with memory of its own.
    fn owned(&self, alloc: Global) -> Result<Content, NoMemory>
        ensures { IfOk result (λ content. content ≡ content_shown self.now) }
    {
        match self {
            ContentRef::External { payload } => {
                let payload = payload.owned(alloc)?;
                Ok(Content::External { payload })
            }
            ContentRef::Message { p, k, payload } => {
                let payload = payload.owned(alloc)?;
                Ok(Content::Message {
                    p: *p,
                    k: *k,
                    payload,
                })
            }
        }
    }
}

impl<'a> BodyRef<'a> {
    /// How many bytes it has in a statement.
    fn size(&self) -> usize
        ensures size { result ≡ length (body_bytes (body_shown self.now)) }
        ensures small { result ≤ 65 }
    {
        match self {
            BodyRef::Filled { content, .. } => 3 + content.size(),
            BodyRef::Attest { .. } => 4 + DIGEST_LEN,
            BodyRef::Ask { .. } => 3,
            BodyRef::Wedge => 0,
            BodyRef::Frozen { .. } => 3,
            BodyRef::Open { lengths } => 1 + 2 * lengths.len() as usize,
        }
    }

    /// How many bytes stand for its payload behind the statement.
    fn carried_size(&self) -> usize
        ensures { result ≡ length (carried_bytes (payload_in (body_shown self.now))) }
    {
        match self {
            BodyRef::Filled { content, .. } => content.payload().size(),
            BodyRef::Attest { payload, .. } => payload.size(),
            BodyRef::Ask { .. } | BodyRef::Wedge => 0,
            BodyRef::Frozen { .. } | BodyRef::Open { .. } => 0,
        }
    }

    /// The head of a statement that says this in an epoch.
    fn head(&self, epoch: u32) -> Head
        ensures { result ≡ head_with epoch (body_shown self.now) }
    {
        let (kind, p, h, at) = match self {
            BodyRef::Filled { kind, h, slot, .. } => (Kind::Filled(*kind), 0, *h, *slot),
            BodyRef::Attest { p, h, k, .. } => (Kind::Attest, *p, *h, *k),
            BodyRef::Ask { h, slot } => (Kind::Ask, 0, *h, *slot),
            BodyRef::Wedge => (Kind::Wedge, 0, 0, 0),
            BodyRef::Frozen { h, slot } => (Kind::Frozen, 0, *h, *slot),
            BodyRef::Open { lengths } => (Kind::Open, 0, 0, lengths.len()),
        };
        Head {
            kind,
            epoch,
            p,
            h,
            at,
        }
    }

    /// The sender and the number of the message that its content is.
    fn message(&self) -> Option<(u32, u32)>
        ensures { result ≡ message_of (body_shown self.now) }
    {
        match self {
            BodyRef::Filled { content, .. } => content.message(),
            BodyRef::Attest { .. } | BodyRef::Ask { .. } | BodyRef::Wedge => None,
            BodyRef::Frozen { .. } | BodyRef::Open { .. } => None,
        }
    }

    /// The body with memory of its own.
    fn owned(&self, alloc: Global) -> Result<Body, NoMemory>
        ensures { IfOk result (λ body. body ≡ body_shown self.now) }
    {
        match self {
            BodyRef::Filled {
                kind,
                h,
                slot,
                content,
            } => {
                let content = content.owned(alloc)?;
                Ok(Body::Filled {
                    kind: *kind,
                    h: *h,
                    slot: *slot,
                    content,
                })
            }
            BodyRef::Attest { p, h, k, payload } => {
                let payload = payload.owned(alloc)?;
                Ok(Body::Attest {
                    p: *p,
                    h: *h,
                    k: *k,
                    payload,
                })
            }
            BodyRef::Ask { h, slot } => Ok(Body::Ask { h: *h, slot: *slot }),
            BodyRef::Wedge => Ok(Body::Wedge),
            BodyRef::Frozen { h, slot } => Ok(Body::Frozen { h: *h, slot: *slot }),
            BodyRef::Open { lengths } => {
                let lengths = lengths.owned(alloc)?;
                Ok(Body::Open { lengths })
            }
        }
    }
}

impl<'a> StatementRef<'a> {
    /// How many bytes its spelling has.
    pub fn size(&self) -> usize
        ensures size { result ≡ length (spelling (statement_shown self.now)) }
        ensures small { result ≤ 68 }
    {
        3 + self.body.size()
    }

    /// How many bytes stand for its payload behind it.
    pub fn carried_size(&self) -> usize
        ensures { result ≡ length (carried_bytes (payload_in (statement_shown self.now).body)) }
    {
        self.body.carried_size()
    }

    /// What it says beside its payload.
    pub fn head(&self) -> Head
        ensures { result ≡ head_of (statement_shown self.now) }
    {
        self.body.head(self.epoch)
    }

    /// The sender and the number of the message that its content is.
    pub fn message(&self) -> Option<(u32, u32)>
        ensures { result ≡ message_of (statement_shown self.now).body }
    {
        self.body.message()
    }

    /// The statement with memory of its own.
    pub fn owned(&self, alloc: Global) -> Result<Statement, NoMemory>
        ensures { IfOk result (λ statement. statement ≡ statement_shown self.now) }
    {
        let body = self.body.owned(alloc)?;
        Ok(Statement {
            epoch: self.epoch,
            body,
        })
    }
}
