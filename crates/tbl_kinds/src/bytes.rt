ghost use Rattle.std.specs.Prelude.{◌≡◌, ◌+◌, ◌≤◌, [], ◌++◌, length, vec_capacity, IfOk, OnOk, OnErr, IfSome, IfNone};
ghost use Rattle.std.specs.Arc.{arc_value};

use crate::inline::{INLINE_LIMIT, InlineBytes};
use std::alloc::{AllocError, AllocFailed, Global};
use std::marker::Model;
use std::mem;
use std::sync::Arc;

/// Memory ran out. Nothing was changed.
#[derive(Clone, Copy, Debug, PartialEq, Eq)]
pub struct Memory;

impl From<AllocError> for Memory {
    fn from(_error: AllocError) -> Memory {
        Memory
    }
}

impl<T: Drop> From<AllocFailed<T>> for Memory {
    fn from(_error: AllocFailed<T>) -> Memory {
        Memory
    }
}

/// Where bytes stand: few of them in the value itself, more of them in memory of their own, or in memory that others have
/// too and that nobody changes.
#[derive(Drop)]
enum Items {
    Inline(InlineBytes),
    Allocated(Vec<u8>),
    Shared(Arc<Vec<u8>, Global>),
}

/// Bytes in memory, with reserved room after them.
#[derive(Drop)]
pub struct Bytes {
    alloc: Global,
    items: Items,
}

impl Model for Bytes {
    ghost use Rattle.tbl_kinds.specs.Buffers.{Buffer};

    ghost Value = { Buffer };

    ghost use Rattle.tbl_kinds.specs.Items.{buffer_of};

    ghost view = { λ b. buffer_of b.items };
}

impl Bytes {
    /// No bytes, with reserved room for this many.
    pub fn make(alloc: Global, room: usize) -> Result<Bytes, Memory>
        ensures empty { IfOk result (λ b. b.list ≡ []) }
        ensures room { IfOk result (λ b. b.spare ≡ room) }
    {
        let items = if room <= INLINE_LIMIT {
            Items::Inline(InlineBytes::make(room))
        } else {
            Items::Allocated(Vec::with_capacity(alloc, room)?)
        };
        Ok(Bytes { alloc, items })
    }

    /// These bytes. Few stand in the value itself, and more in memory that others can have too.
    pub fn of(alloc: Global, bytes: &[u8]) -> Result<Bytes, Memory>
        ensures { IfOk result (λ b. b.list ≡ bytes.now) }
    {
        let items = if bytes.len() <= INLINE_LIMIT {
            let mut inline = InlineBytes::make(bytes.len());
            inline.append(bytes);
            Items::Inline(inline)
        } else {
            Items::Allocated(Vec::from_slice(alloc, bytes)?)
        };
        Ok(Bytes { alloc, items })
    }

    /// Bytes that others have too.
    pub fn from_shared(alloc: Global, shared: Arc<Vec<u8>, Global>) -> Bytes
        ensures { result.list ≡ (arc_value shared).items }
    {
        Bytes {
            alloc,
            items: Items::Shared(shared),
        }
    }

    /// The bytes.
    pub fn bytes(&self) -> &[u8]
        ensures { result.now ≡ self.now.list }
    {
        match &self.items {
            Items::Inline(inline) => inline.bytes(),
            Items::Allocated(allocated) => allocated.as_slice(),
            Items::Shared(shared) => shared.as_slice(),
        }
    }

    /// Where the memory of the bytes comes from.
    pub fn allocator(&self) -> Global {
        self.alloc
    }

    /// A further owner of the bytes, which nobody changes from now on. None where they stand in the value itself.
    pub fn share(&mut self) -> Result<Option<Arc<Vec<u8>, Global>>, Memory>
        ensures same { self.new ≡ self.old }
        ensures shared { IfOk result (λ owner. IfSome owner (λ shared. (arc_value shared).items ≡ self.old.list)) }
        ensures few { IfOk result (λ owner. IfNone owner (length self.old.list ≤ 24)) }
    {
        match &mut self.items {
            Items::Inline(inline) => {
                let _bytes = inline.bytes();
                Ok(None)
            }
            Items::Shared(shared) => Ok(Some(Arc::try_clone(shared)?)),
            // Room that is reserved after the bytes stays with them, and others get a copy.
            Items::Allocated(allocated) if allocated.capacity() > allocated.len() => {
                let copy = copy_of(self.alloc, allocated.as_slice(), 0)?;
                Ok(Some(Arc::new(self.alloc, copy)?))
            }
            Items::Allocated(allocated) => {
                let allocated = mem::replace(allocated, Vec::new(self.alloc));
                match Arc::new(self.alloc, allocated) {
                    Ok(shared) => {
                        let owner = Arc::try_clone(&shared);
                        self.items = Items::Shared(shared);
                        Ok(Some(owner?))
                    }
                    Err(failed) => {
                        self.items = Items::Allocated(failed.value);
                        Err(Memory)
                    }
                }
            }
        }
    }

    /// The same bytes once more: a copy where they stand in the value itself, else a further owner.
    pub fn again(&mut self) -> Result<Bytes, Memory>
        ensures same { self.new ≡ self.old }
        ensures copy { IfOk result (λ b. b.list ≡ self.old.list) }
    {
        match self.share()? {
            Some(shared) => Ok(Bytes::from_shared(self.alloc, shared)),
            None => self.copy(),
        }
    }

    /// The same bytes in memory of their own, or in the same memory where others have them already.
    pub fn copy(&self) -> Result<Bytes, Memory>
        ensures { IfOk result (λ b. b.list ≡ self.now.list) }
    {
        let items = match &self.items {
            Items::Inline(inline) => Items::Inline(inline.copy()),
            Items::Allocated(allocated) => Items::Allocated(copy_of(
                self.alloc,
                allocated.as_slice(),
                0,
            )?),
            Items::Shared(shared) => Items::Shared(Arc::try_clone(shared)?),
        };
        Ok(Bytes {
            alloc: self.alloc,
            items,
        })
    }

    /// Puts the bytes of a piece last, into reserved room.
    #[inline(always)]
    pub fn append(&mut self, piece: &[u8])
        requires { length piece.now ≤ self.old.spare }
        ensures bytes { self.new.list ≡ self.old.list ++ piece.now }
        ensures room { self.old.spare ≤ self.new.spare + length piece.now }
    {
        match &mut self.items {
            Items::Inline(inline) => inline.append(piece),
            Items::Allocated(allocated) => append_to(allocated, piece),
            Items::Shared(_) => {}
        }
    }

    /// Reserves room for this many further bytes.
    #[inline]
    pub fn reserve(&mut self, more: usize) -> Result<(), Memory>
        ensures bytes { self.new.list ≡ self.old.list }
        ensures room { OnOk result (more ≤ self.new.spare) }
        ensures err { OnErr result (self.new ≡ self.old) }
    {
        if let Items::Inline(inline) = &mut self.items {
            if inline.reserve(more) {
                return Ok(());
            }
        }
        self.grow(more)
    }

    /// Reserves room for this many further bytes in memory of their own.
    #[inline(never)]
    fn grow(&mut self, more: usize) -> Result<(), Memory>
        ensures bytes { self.new.list ≡ self.old.list }
        ensures room { OnOk result (more ≤ self.new.spare) }
        ensures err { OnErr result (self.new ≡ self.old) }
    {
        match &mut self.items {
            Items::Allocated(allocated) => allocated.reserve(more)?,
            Items::Shared(_) if more == 0 => {}
            _ => self.items = Items::Allocated(copy_of(self.alloc, self.bytes(), more)?),
        }
        Ok(())
    }

    /// Takes all bytes away. The room stays, but not that of bytes that others have too.
    pub fn clear(&mut self)
        ensures { self.new.list ≡ [] }
    {
        match &mut self.items {
            Items::Inline(inline) => inline.clear(),
            Items::Allocated(allocated) => allocated.clear(),
            Items::Shared(_) => self.items = Items::Inline(InlineBytes::make(0)),
        }
    }
}

/// The bytes in memory of their own, with reserved room for this many further ones.
fn copy_of(alloc: Global, bytes: &[u8], more: usize) -> Result<Vec<u8>, Memory>
    ensures bytes { IfOk result (λ allocated. allocated.items ≡ bytes.now) }
    ensures room { IfOk result (λ allocated. length bytes.now + more ≤ vec_capacity allocated) }
{
    let Some(room) = bytes.len().checked_add(more) else {
        return Err(Memory);
    };
    let mut allocated = Vec::with_capacity(alloc, room)?;
    let _ = allocated.extend_from_slice(bytes);
    Ok(allocated)
}

/// Puts the bytes of a piece last, into reserved room. It stands by itself, so that `append` is short where it is inlined.
#[inline(never)]
fn append_to(allocated: &mut Vec<u8>, piece: &[u8])
    requires { length allocated.old.items + length piece.now ≤ vec_capacity allocated.old }
    ensures bytes { allocated.new.items ≡ allocated.old.items ++ piece.now }
    ensures room { vec_capacity allocated.old ≤ vec_capacity allocated.new }
{
    let _ = allocated.extend_from_slice(piece);
}
