use compact_values::{Guid, Octets, Seq, Text};

/// The editors of a document.
pub type Editors = Seq<Editor>;

/// What an editor tells of itself, by its keys.
pub type Entries = Seq<Entry>;

/// A client that edits the document until a moment (MS-FSSHTTP 3.1.4.8).
#[derive(Debug, Drop, PartialEq, Eq)]
pub struct Editor {
    pub client: Guid,
    pub user: Text,
    pub until: u64,
    pub entries: Entries,
}

/// A key and its value.
#[derive(Debug, Drop, PartialEq, Eq)]
pub struct Entry {
    pub key: Text,
    pub value: Octets,
}

/// What a client asks of the table of editors. Timeouts are seconds.
#[derive(Debug, Drop, PartialEq, Eq)]
pub enum EditorStep {
    /// Join the editing session, or refresh one's place in it.
    Join {
        client: Guid,
        timeout: u64,
    },
    /// Leave the editing session.
    Leave {
        client: Guid,
    },
    /// Refresh the editing session.
    Refresh {
        client: Guid,
        timeout: u64,
    },
    /// Update editor metadata.
    SetKey {
        client: Guid,
        key: Text,
        value: Octets,
    },
    /// Remove editor metadata.
    RemoveKey {
        client: Guid,
        key: Text,
    },
}
