//! The tables. Each is plain words, so it is copied freely.

/// The innermost entry of each table: the word that stands for the end of a value.
#[derive(Clone, Copy, PartialEq, Eq, Hash, Debug)]
pub struct VtDrop {
    pub word: u64,
}

/// The entry that lets a value tell its type, and so be asked for its content.
#[derive(Clone, Copy, PartialEq, Eq, Hash, Debug)]
pub struct AnyVt {
    pub word: u64,
}

/// The entry that lets a value be iterated.
#[derive(Clone, Copy, PartialEq, Eq, Hash, Debug)]
pub struct IterVt {
    pub word: u64,
}

/// A head on top of a tail: the head is the interface added last.
#[derive(Clone, Copy, PartialEq, Eq, Hash, Debug)]
pub struct VTable<Head, Tail = VtDrop> {
    pub tail: Tail,
    pub head: Head,
}

/// Marks the table of a value that may go to another thread.
#[derive(Clone, Copy, PartialEq, Eq, Hash, Debug)]
pub struct VtSend<V>(pub V);

/// Marks the table of a value that several threads may read at once.
#[derive(Clone, Copy, PartialEq, Eq, Hash, Debug)]
pub struct VtSync<V>(pub V);
