//! Writes the store of a bank as text.

ghost use Rattle.std.specs.Prelude.{◌≡◌, ◌⊎◌, ◌≤◌};
ghost use Rattle.tbl_kinds.specs.Places.{bank_size};
ghost use Rattle.tbl_stream.specs.Writing.{taken_of};
ghost use Rattle.tbl_top.specs.Listing.{ListsStore, TellsText};

use cds_layout::{TextFault, store_text};
use std::alloc::Global;
use tbl_kinds::Bytes;
use tbl_outside::{Bank, Failed, Sink};
use tbl_stream::{BANK_FAILED, DONE, NO_MEMORY, SINK_FAILED};

/// Writes a text whole, and answers the status.
pub(crate) fn write_text<K: Sink>(text: &Bytes, sink: &mut K) -> u8
    ensures status { (result ≡ 0) ⊎ (result ≡ 4) }
    ensures told { TellsText result text.now.list (taken_of K.Sink sink.old) (taken_of K.Sink sink.new) }
    ensures count { K.faults sink.old ≤ K.faults sink.new }
{
    match sink.write(text.bytes()) {
        Ok(()) => DONE,
        Err(Failed) => SINK_FAILED,
    }
}

/// Writes the text of the store in a bank, which is prepared whole before the first byte of it is written. The status.
pub(crate) fn list_store<K: Sink, B: Bank>(alloc: Global, bank: &mut B, sink: &mut K) -> u8
    requires room { bank_size ≤ B.size bank.old }
    ensures listing { ListsStore B.Bank bank.old bank.new result (taken_of K.Sink sink.old) (taken_of K.Sink sink.new) }
    ensures size { B.size bank.new ≡ B.size bank.old }
{
    match store_text(alloc, bank) {
        Err(TextFault::Memory) => NO_MEMORY,
        Err(TextFault::Fault) => BANK_FAILED,
        Ok(text) => write_text(&text, sink),
    }
}
