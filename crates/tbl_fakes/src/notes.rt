// The calls that a bank in memory got.
ghost use Rattle.std.specs.Prelude.{◌≡◌, ◌+◌, ◌<◌, ◌^◌, true, false, [], IfOk, length};
ghost use Rattle.tbl_outside.specs.BankCalls.{read, write};
ghost use Rattle.tbl_fakes.specs.Notes.{nothing_noted, has_room_for, with_call, noted, kept_of, call_of};

use std::alloc::Global;
use std::marker::Model;
use tbl_kinds::{Bytes, Memory};

/// A call: where it begins, and how many bytes it has.
#[derive(Clone, Copy)]
pub(crate) enum NotedCall {
    Read(u32, u32),
    Write(u32, u32),
}

/// The calls so far, oldest first, the bytes of the writes one after the other, the room that is left for both, and
/// whether a call was left out for lack of room.
#[derive(Drop)]
pub(crate) struct Notes {
    calls: Vec<NotedCall>,
    bytes: Bytes,
    left: usize,
    room: usize,
    missed: bool,
}

impl Model for Notes {
    ghost use Rattle.std.specs.Prelude.{◌+◌, ◌≤◌, [], vec_len, vec_capacity};
    ghost use Rattle.tbl_fakes.specs.Notes.{Noting, AllKept, told};

    ghost Value = { Noting };

    ghost view = { λ n. record { calls = told n.calls.items n.bytes.list []; left = n.left; room = n.room; missed = n.missed } };

    ghost invariant = { λ n. (vec_len n.calls + n.left ≤ vec_capacity n.calls)
        × (n.room ≤ n.bytes.spare)
        × AllKept n.calls.items n.bytes.list };
}

impl Notes {
    /// No call yet, and room for so many, with so many bytes of writes in all.
    pub(crate) fn make(alloc: Global, calls: usize, room: u32) -> Result<Notes, Memory>
        ensures { IfOk result (λ n. n ≡ nothing_noted calls room) }
    {
        Ok(Notes {
            calls: Vec::with_capacity(alloc, calls)?,
            bytes: Bytes::make(alloc, room as usize)?,
            left: calls,
            room: room as usize,
            missed: false,
        })
    }

    /// Keeps a call and the bytes that it writes.
    fn keep(&mut self, call: NotedCall, bytes: &[u8])
        requires room { has_room_for (length bytes.now) self.old ≡ true }
        requires size { length bytes.now ≡ kept_of call }
        ensures { self.new ≡ with_call (call_of call bytes.now) (length bytes.now) self.old }
    {
        let _ = self.calls.push(call);
        self.bytes.append(bytes);
        self.left -= 1;
        self.room -= bytes.len();
    }

    /// Notes a read of so many bytes.
    pub(crate) fn note_read(&mut self, at: u32, length: u32)
        ensures { self.new ≡ noted (read at length) self.old }
    {
        if 0 < self.left {
            self.keep(NotedCall::Read(at, length), &[]);
        } else {
            self.missed = true;
        }
    }

    /// Notes a write of these bytes.
    pub(crate) fn note_write(&mut self, at: u32, bytes: &[u8])
        requires { length bytes.now < 2 ^ 32 }
        ensures { self.new ≡ noted (write at bytes.now) self.old }
    {
        if 0 < self.left && bytes.len() <= self.room {
            self.keep(NotedCall::Write(at, bytes.len() as u32), bytes);
        } else {
            self.missed = true;
        }
    }
}
