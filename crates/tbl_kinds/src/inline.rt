ghost use Rattle.std.specs.Prelude.{◌≡◌, ◌+◌, ◌≤◌, [], ◌++◌, length, false, IsTrue};

use std::marker::Model;

/// How many bytes stand in a value itself, at most: those of an event's packet.
pub const INLINE_LIMIT: usize = 24;

/// Up to 24 bytes in the value itself, with reserved room after them.
#[derive(Drop)]
pub(crate) struct InlineBytes {
    len: u8,
    /// How many bytes there is room for, with those that are there.
    room: u8,
    bytes: [u8; INLINE_LIMIT],
}

impl Model for InlineBytes {
    ghost use Rattle.tbl_kinds.specs.Buffers.{Buffer};

    ghost Value = { Buffer };

    ghost use Rattle.std.specs.Prelude.{◌-◌, ◌≤◌, take};

    ghost view = { λ f. record { list = take f.len f.bytes; spare = f.room - f.len } };

    ghost invariant = { λ f. (f.len ≤ f.room) × (f.room ≤ 24) };
}

impl InlineBytes {
    /// No bytes, with reserved room for this many.
    pub(crate) fn make(room: usize) -> InlineBytes
        requires { room ≤ 24 }
        ensures empty { result.list ≡ [] }
        ensures room { result.spare ≡ room }
    {
        InlineBytes {
            len: 0,
            room: room as u8,
            bytes: [0; INLINE_LIMIT],
        }
    }

    /// The bytes.
    pub(crate) fn bytes(&self) -> &[u8]
        ensures bytes { result.now ≡ self.now.list }
        ensures within { length result.now + self.now.spare ≤ 24 }
    {
        &self.bytes[..usize::from(self.len)]
    }

    /// The same bytes, with the same room.
    pub(crate) fn copy(&self) -> InlineBytes
        ensures { result ≡ self.now }
    {
        InlineBytes {
            len: self.len,
            room: self.room,
            bytes: self.bytes,
        }
    }

    /// Puts the bytes of a piece last, into reserved room.
    #[inline(always)]
    pub(crate) fn append(&mut self, piece: &[u8])
        requires { length piece.now ≤ self.old.spare }
        ensures bytes { self.new.list ≡ self.old.list ++ piece.now }
        ensures room { self.new.spare + length piece.now ≡ self.old.spare }
    {
        let len = usize::from(self.len);
        let end = len + piece.len();
        self.bytes[len..end].copy_from_slice(piece);
        self.len = end as u8;
    }

    /// Reserves room for this many further bytes, as far as they fit into the value.
    pub(crate) fn reserve(&mut self, more: usize) -> bool
        ensures bytes { self.new.list ≡ self.old.list }
        ensures room { IsTrue result → more ≤ self.new.spare }
        ensures full { result ≡ false → self.new ≡ self.old }
    {
        let len = usize::from(self.len);
        if more > INLINE_LIMIT - len {
            return false;
        }
        if usize::from(self.room) < len + more {
            self.room = (len + more) as u8;
        }
        true
    }

    /// Takes all bytes away. The room stays.
    pub(crate) fn clear(&mut self)
        ensures bytes { self.new.list ≡ [] }
        ensures room { self.new.spare ≡ self.old.spare + length self.old.list }
    {
        self.len = 0;
    }
}
