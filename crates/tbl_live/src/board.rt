//! Receipts that all threads may look at.

ghost use Rattle.std.specs.Prelude.{◌≡◌, IfOk, IfErr};
ghost use Rattle.tbl_live.specs.Boards.{IsOfBoard};

use crate::receipts::Receipt;
use boxcar::{Pushed, Vec};
use std::alloc::Global;
use std::marker::Model;
use std::sync::Wait;
use tbl_kinds::Memory;

/// A board, on which receipts stay as long as it is there.
#[derive(Drop)]
pub struct Board {
    receipts: Vec<Receipt>,
}

impl Model for Board {
    ghost use Rattle.tbl_live.specs.Boards.{BoardView};

    ghost Value = { BoardView };

    ghost view = { λ b. b.receipts };
}

/// The place of a receipt on its board. Contracts see the receipt as its `value`.
#[derive(Drop)]
pub struct Ticket {
    pushed: Pushed<Receipt>,
}

impl Model for Ticket {
    ghost use Rattle.tbl_live.specs.Boards.{TicketView};

    ghost Value = { TicketView };

    ghost view = { λ t. t.pushed };
}

impl Board {
    /// A board without receipts. An Err means out of memory.
    pub fn make(alloc: Global) -> Result<Board, Memory> {
        Ok(Board {
            receipts: Vec::new(alloc)?,
        })
    }

    /// Puts a receipt on the board. It may wait for another thread that makes room there. An Err means out of memory, with the
    /// receipt.
    pub fn publish<R: Wait>(&self, rt: &R, receipt: Receipt) -> Result<Ticket, Receipt>
        ensures ok { IfOk result (λ ticket. IsOfBoard self.now ticket × (ticket.value ≡ receipt)) }
        ensures err { IfErr result (λ back. back ≡ receipt) }
    {
        let pushed = self.receipts.push_shown(rt, receipt)?;
        Ok(Ticket { pushed })
    }

    /// The receipt that was published with this ticket. It takes no lock.
    pub fn at<'a>(&'a self, ticket: &Ticket) -> &'a Receipt
        requires board { IsOfBoard self.now ticket.now }
        ensures receipt { result.now ≡ ticket.now.value }
    {
        self.receipts.value(&ticket.pushed)
    }
}
