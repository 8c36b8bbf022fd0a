//! Calls are made of the store, where it serves them.

ghost use Rattle.std.specs.Prelude.{◌≡◌, ◌≤◌, true, length, IfSome};
ghost use Rattle.tbl_kinds.specs.Places.{bank_size};
ghost use Rattle.cds_store.specs.Sound.{slot_at, IsOpenOf};

use crate::words::Words;
use cds_layout::MOST_IMAGE;
use cds_store::{BankFault, Store};
use check_word::Checked;
use std::alloc::Global;
use std::io;
use tbl_fakes::MemBank;
use tbl_kinds::{BlockKind, Memory, Name, Name40, ResetKind};
use tbl_outside::Back;

/// How many bytes a name has at most.
const MOST_NAME: usize = 40;

/// What is told of a call that the store doesn't serve as it is.
const NOT_MADE: &str = "no call, which the store would not have served";

/// A store in a bank in memory, and whether it was booted.
#[derive(Drop)]
pub(crate) struct Served {
    store: Store<MemBank>,
    booted: bool,
    ghost knows: { booted ≡ true → store.booted ≡ true },
}

fn reset_in(words: &mut Words) -> ResetKind {
    if words.next() == "processor" {
        ResetKind::Processor
    } else {
        ResetKind::PowerOn
    }
}

fn kind_in(words: &mut Words) -> BlockKind {
    if words.next() == "T" {
        BlockKind::Table
    } else {
        BlockKind::App
    }
}

fn name_in(words: &mut Words) -> Option<Name40> {
    let word = words.next().as_bytes();
    if MOST_NAME < word.len() {
        return None;
    }
    Some(Name::of(word))
}

impl Served {
    /// A store that isn't booted.
    pub(crate) fn make(alloc: Global, bank: MemBank) -> Result<Served, Memory>
        requires { bank_size ≤ length bank.bytes }
    {
        match Store::make(alloc, bank) {
            Ok(store) => Ok(Served {
                store,
                booted: false,
            }),
            Err(Back { cause, .. }) => Err(cause),
        }
    }

    /// The bank.
    pub(crate) fn end(self) -> MemBank
        ensures { bank_size ≤ length result.bytes }
    {
        self.store.end()
    }

    /// `boot KIND`
    fn boot<R: Print>(&mut self, rt: &R, kind: ResetKind) -> io::Result<()> {
        self.booted = false;
        match self.store.boot(kind) {
            Ok(found) => {
                self.booted = true;
                println!(rt; "ok {:?}", found.list())
            }
            Err(BankFault::Fault { .. }) => println!(rt; "fault"),
            Err(BankFault::Stopped { .. }) => println!(rt; "stopped"),
        }
    }

    /// `reserve KIND NAME SIZE`
    fn reserve<R: Print>(
        &mut self,
        rt: &R,
        kind: BlockKind,
        name: &Name40,
        size: u32,
    ) -> io::Result<()> {
        if !self.booted || size == 0 || MOST_IMAGE < size {
            return println!(rt; "{NOT_MADE}");
        }
        if !name.is_name() || self.store.find(kind, name).is_some() {
            return println!(rt; "{NOT_MADE}");
        }
        println!(rt; "{:?}", self.store.reserve_block(kind, name, size))
    }

    /// The size of the open block in a slot.
    fn open_size(&self, slot: u8) -> Option<u32>
        ensures { IfSome result (λ size. IsOpenOf size (slot_at self.now.store.slots slot)) }
    {
        let block = self.store.block(slot)?;
        if self.store.find(block.kind, &block.name) == Some(slot) {
            Some(block.size)
        } else {
            None
        }
    }

    /// `copy SLOT IMAGE`
    fn copy<R: Print>(&mut self, rt: &R, slot: u8, image: &[u8]) -> io::Result<()> {
        match self.open_size(slot) {
            Some(size) if self.booted && size as usize == image.len() => {
                println!(rt; "{:?}", self.store.copy(slot, &Checked::of(image)))
            }
            _ => println!(rt; "{NOT_MADE}"),
        }
    }

    /// `restore SLOT`
    fn restore<R: Print + AllocGlobal>(&mut self, rt: &R, slot: u8) -> io::Result<()> {
        match self.open_size(slot) {
            Some(size) if self.booted => {
                let mut image = vec![in rt.alloc(); 0; size as usize]?;
                match self.store.restore(slot, &mut image) {
                    Ok(()) => println!(rt; "image {}", hex::encode(rt.alloc(), &image)?.as_str()),
                    Err(fault) => println!(rt; "{fault:?}"),
                }
            }
            _ => println!(rt; "{NOT_MADE}"),
        }
    }

    /// `delete SLOT`
    fn delete<R: Print>(&mut self, rt: &R, slot: u8) -> io::Result<()> {
        if !self.booted || self.store.block(slot).is_none() {
            return println!(rt; "{NOT_MADE}");
        }
        println!(rt; "{:?}", self.store.delete_block(slot))
    }

    /// Makes a call, where the store is in a state for it, and tells what it answered.
    pub(crate) fn call<R: Print + AllocGlobal>(
        &mut self,
        rt: &R,
        words: &mut Words,
    ) -> io::Result<()> {
        match words.next() {
            "boot" => self.boot(rt, reset_in(words)),
            "room" => println!(rt; "{}", self.store.room(words.number(), None)),
            "reserve" => {
                let kind = kind_in(words);
                match name_in(words) {
                    Some(name) => self.reserve(rt, kind, &name, words.number()),
                    None => println!(rt; "{NOT_MADE}"),
                }
            }
            "copy" => {
                let slot = words.slot();
                self.copy(rt, slot, &words.bytes(rt.alloc()))
            }
            "restore" => self.restore(rt, words.slot()),
            "delete" => self.delete(rt, words.slot()),
            _ => println!(rt; "no call"),
        }
    }
}
