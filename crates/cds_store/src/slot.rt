use tbl_kinds::Block;

/// A directory slot that is taken.
#[derive(Drop)]
pub struct Slot {
    pub block: Block,
    /// Whether a write of its gate byte broke off, so that only a boot finds out whether it is open.
    pub doubtful: bool,
}
