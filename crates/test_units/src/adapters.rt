ghost use Rattle.std.specs.Prelude.{◌≡◌, ◌+◌, ◌<◌, ◌≤◌, ⊤, length, take, IfOk, OnErr};
ghost use Rattle.tbl_kinds.specs.Numbers.{patched};
ghost use Rattle.tbl_adapters.specs.Files.{written, Spoiled};

use std::alloc::Global;
use std::fs;
use std::io::{self, ErrorKind};
use std::test::Fail;
use tbl_adapters::{OpenFault, RandomAccess, StandardInput, StandardOutput, StoreFile, Syncing};
use tbl_kinds::Memory;
use tbl_outside::{Bank, Sink, Written};

/// A file in memory that tells its bytes. It moves one of them in a call, and fails in the call of a number.
#[derive(Drop)]
struct OneByteFile {
    bytes: Vec<u8>,
    calls: u32,
    bad: u32,
}

/// Copies bytes over others.
fn copy_over(kept: &mut [u8], at: usize, bytes: &[u8])
    requires { at + length bytes.now ≤ length kept.old }
    ensures { kept.new ≡ patched kept.old at bytes.now }
{
    kept[at..at + bytes.len()].copy_from_slice(bytes);
}

/// Writes bytes over others in a vector.
fn write_over(kept: &mut Vec<u8>, at: usize, bytes: &[u8])
    requires { at + length bytes.now ≤ length kept.old.items }
    ensures { kept.new.items ≡ patched kept.old.items at bytes.now }
{
    copy_over(kept, at, bytes);
}

/// Writes the first byte of a piece over the one at a place, or after the last.
#[tactic(auto, using(crate::proofs::OneByte::written_over, crate::proofs::OneByte::written_last, crate::proofs::OneByte::spoiled_same))]
fn put_first(kept: &mut Vec<u8>, at: u64, piece: &[u8]) -> io::Result<usize>
    requires { 0 < length piece.now }
    ensures fits { IfOk result (λ n. n ≤ length piece.now) }
    ensures written { IfOk result (λ n. kept.new.items ≡ written kept.old.items at (take n piece.now)) }
    ensures failed { OnErr result (Spoiled at (length piece.now) kept.old.items kept.new.items) }
{
    let end = kept.len() as u64;
    if at < end {
        write_over(kept, at as usize, &piece[..1]);
        return Ok(1);
    }
    if end < at {
        return Err(ErrorKind::InvalidInput.into());
    }
    match kept.push(piece[0]) {
        Ok(()) => Ok(1),
        Err(_) => Err(ErrorKind::OutOfMemory.into()),
    }
}

impl OneByteFile {
    /// Counts a call, and says whether it fails.
    fn fails_next(&mut self) -> bool
        ensures { self.new.bytes ≡ self.old.bytes }
    {
        self.calls = self.calls.saturating_add(1);
        self.calls == self.bad
    }
}

impl RandomAccess for OneByteFile {
    ghost tells = { ⊤ };

    ghost content = { λ f. f.bytes.items };

    fn len(&mut self) -> io::Result<u64> {
        Ok(self.bytes.len() as u64)
    }

    fn read_some(&mut self, at: u64, into: &mut [u8]) -> io::Result<usize> {
        if self.fails_next() {
            return Err(ErrorKind::Other.into());
        }
        let bytes = self.bytes.as_slice();
        if into.is_empty() || bytes.len() as u64 <= at {
            return Ok(0);
        }
        into[0] = bytes[at as usize];
        Ok(1)
    }

    #[tactic(auto, using(crate::proofs::OneByte::spoiled_same))]
    fn write_some(&mut self, at: u64, bytes: &[u8]) -> io::Result<usize> {
        if self.fails_next() {
            return Err(ErrorKind::Other.into());
        }
        if bytes.is_empty() {
            return Ok(0);
        }
        put_first(&mut self.bytes, at, bytes)
    }
}

/// A file that begins as `abcd`.
fn one_byte_file(alloc: Global, bad: u32) -> Result<OneByteFile, Memory> {
    Ok(OneByteFile {
        bytes: Vec::from_slice(alloc, b"abcd")?,
        calls: 0,
        bad,
    })
}

/// Compiles only where a value may be sent to a thread.
fn sent<T: Send>(_value: &T) {}

/// A store file of 12 bytes over one that begins as `abcd`.
fn store_over(alloc: Global, bad: u32) -> Result<StoreFile<OneByteFile>, Fail> {
    let file = one_byte_file(alloc, bad)?;
    Ok(StoreFile::over(file, 12)?)
}

/// Writes and then reads at the front of a bank, through the bound. It answers how the write ended, and nothing where the
/// bank hasn't so many bytes or the read fails.
fn write_and_read<B: Bank>(bank: &mut B, bytes: &[u8], into: &mut [u8]) -> Option<Written> {
    let size = bank.size() as usize;
    if size < bytes.len() || size < into.len() {
        return None;
    }
    let written = bank.write_at(0, bytes);
    match bank.read_at(0, into) {
        Ok(()) => Some(written),
        Err(_) => None,
    }
}

#[test]
fn a_file_that_moves_one_byte_at_a_time(rt: HostRuntime) -> Result<(), Fail> {
    let mut store = store_over(rt.alloc(), 0)?;
    let mut piece = [b'?'; 12];
    let told = write_and_read(&mut store, b"ABC", &mut piece);
    assert!(rt;
        told == Some(Written::Done) && piece == *b"ABCd\0\0\0\0\0\0\0\0" && store.faults() == 0
    );
    Ok(())
}

#[test]
fn a_write_that_fails_in_the_midst(rt: HostRuntime) -> Result<(), Fail> {
    // Eight calls make the file longer, so the tenth writes the second byte.
    let mut store = store_over(rt.alloc(), 10)?;
    let mut piece = [b'?'; 5];
    let told = write_and_read(&mut store, b"ABC", &mut piece);
    assert!(rt; told == Some(Written::Failed) && piece == *b"Abcd\0" && store.faults() == 1);
    Ok(())
}

#[test]
fn a_file_that_cant_be_made_longer(rt: HostRuntime) -> Result<(), Fail> {
    let file = one_byte_file(rt.alloc(), 2)?;
    let opened = StoreFile::over(file, 12);
    assert!(rt; matches!(&opened, Err(OpenFault::Lengthen(_))));
    Ok(())
}

/// Writes into the store file, and says whether the bytes came back after it.
fn is_kept(store: &mut StoreFile) -> bool {
    sent(store);
    let mut piece = [b'?'; 8];
    let told = write_and_read(store, b"abc", &mut piece);
    told == Some(Written::Done) && piece == *b"abc\0\0\0\0\0"
}

#[test]
fn the_store_file(rt: HostRuntime) -> Result<(), Fail> {
    let mut store = StoreFile::open(&rt, "cds.store", 8, Syncing::EachWrite)?;
    assert!(rt; is_kept(&mut store));
    fs::remove_file(&rt, "cds.store")?;
    Ok(())
}

#[test]
fn the_streams(rt: HostRuntime) {
    let input = StandardInput::of(rt.stdin());
    let mut output = StandardOutput::of(rt.stdout());
    assert!(rt; output.write(b"").is_ok() && input.faults() == 0 && output.faults() == 0);
}
