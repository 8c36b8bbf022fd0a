//! Receipts beside the history.

use tbl_kinds::Entry;
use tbl_live::Receipt;

/// What a caller was told.
#[derive(Drop)]
pub(crate) struct Told {
    pub(crate) receipts: Vec<Receipt>,
    pub(crate) is_refused: bool,
    /// Whether a read gave other bytes than those of the image.
    pub(crate) is_torn: bool,
}

impl Told {
    /// What the last receipt is about: of a table that was registered its handle; 0 where there is none.
    pub(crate) fn last_detail(&self) -> u16 {
        match self.receipts.last() {
            Some(receipt) => receipt.detail().min(u32::from(u16::MAX)) as u16,
            None => 0,
        }
    }
}

/// Whether a receipt is that of an entry at this place.
fn is_receipt_of(receipt: &Receipt, place: usize, entry: &Entry) -> bool {
    receipt.place() as usize == place
        && receipt.actor() == entry.actor
        && receipt.status() == entry.reply.status
        && receipt.detail() == entry.reply.detail
}

/// Whether the receipts are those of all entries of this actor, in their order.
pub(crate) fn are_all(receipts: &[Receipt], entries: &[Entry], actor: u8) -> bool {
    let mut next = 0;
    for (place, entry) in entries.iter().enumerate() {
        if entry.actor.number() != actor {
            continue;
        }
        match receipts.get(next) {
            Some(receipt) if is_receipt_of(receipt, place, entry) => next += 1,
            _ => return false,
        }
    }
    next == receipts.len()
}
