use crate::payload::Payload;
use nvd_words::Items;
use uuid::Uuid;

/// A call of a session that isn't on sectors.
#[derive(Debug, Drop)]
pub enum Order {
    /// `open UUID`: the session opens a namespace.
    Open {
        uuid: Uuid,
    },
    /// `close`: it closes the namespace that it has open.
    Close,
    /// `create UUID REGION SIZE NAME`: a namespace of so many bytes is made. The name is UTF-8
    /// without control characters, of any length.
    Create {
        uuid: Uuid,
        region: u32,
        size: u64,
        name: Items<u8>,
    },
    /// `delete UUID`: a namespace is deleted.
    Delete {
        uuid: Uuid,
    },
    /// `rename UUID NAME`: a namespace gets another name, as for `create`.
    Rename {
        uuid: Uuid,
        name: Items<u8>,
    },
}

/// A call of a session.
#[derive(Debug, Drop)]
pub enum Line {
    /// `read SECTOR`
    Read { sector: u64 },
    /// `write SECTOR VALUE`
    Write { sector: u64, value: Payload },
    /// A call that isn't on sectors.
    Order(Order),
}

/// The calls of a session.
#[derive(Debug, Drop)]
pub struct SessionLines {
    /// After how many steps of its own the session cuts power, if it does.
    pub cut: Option<u64>,
    /// Its calls, in order.
    pub calls: Items<Line>,
}

/// A script of sessions.
#[derive(Debug, Drop)]
pub struct Script {
    /// After how many steps on labels power is cut, if it is.
    pub labelcut: Option<u64>,
    /// The sessions, by their numbers from 0 on.
    pub sessions: Items<SessionLines>,
}
