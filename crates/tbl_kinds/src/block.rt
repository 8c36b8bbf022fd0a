use crate::name::Name40;

/// Whom a block of the Critical Data Store serves (cFE User's Guide, Executive Services, "Critical Data Store").
#[derive(Clone, Copy, PartialEq, Eq)]
pub enum BlockKind {
    /// It keeps the image of a critical table.
    Table,
    /// An application registered it for data of its own.
    App,
}

/// A block of the Critical Data Store, as its directory entry tells it.
#[derive(PartialEq, Eq, Drop)]
pub struct Block {
    pub kind: BlockKind,
    /// Where its head begins in the bank.
    pub offset: u32,
    /// How many bytes its image has, without the head of 8 bytes.
    pub size: u32,
    pub name: Name40,
}
