//! Whole pieces are read and written, and a file is made longer. Each failure of the system ends such a call.

ghost use Rattle.std.specs.Prelude.{◌≡◌, ◌+◌, ◌-◌, ◌<◌, ◌≤◌, ◌^◌, ◌++◌, length, replicate, OnOk, OnErr};
ghost use Rattle.tbl_kinds.specs.Numbers.{piece};
ghost use Rattle.tbl_adapters.specs.Files.{padded, written, Spoiled, lengthened};

use crate::fault::OpenFault;
use crate::random_access::RandomAccess;
use std::io::{self, ErrorKind};

/// How many zeros are written at a time.
const ZEROS: usize = 512;

/// Reads a whole piece. A file that ends before it is a failure.
pub(crate) fn read_all<F: RandomAccess>(file: &mut F, at: u64, into: &mut [u8]) -> io::Result<()>
    requires { at + length into.old < 2 ^ 64 }
    ensures read { F.tells → OnOk result (into.new ≡ piece at (length into.old) (F.content file.old)) }
    ensures kept { F.tells → F.content file.new ≡ F.content file.old }
{
    let mut done = 0;
    'pieces: while done < into.len() {
        match file.read_some(at + done as u64, &mut into[done..])? {
            0 => return Err(ErrorKind::UnexpectedEof.into()),
            count => done += count,
        }
    }
    Ok(())
}

/// Writes whole bytes at a place.
pub(crate) fn write_all<F: RandomAccess>(file: &mut F, at: u64, bytes: &[u8]) -> io::Result<()>
    requires { at + length bytes.now < 2 ^ 64 }
    ensures written { F.tells → OnOk result (F.content file.new ≡ written (F.content file.old) at bytes.now) }
    ensures failed { F.tells → OnErr result (Spoiled at (length bytes.now) (F.content file.old) (F.content file.new)) }
{
    let mut done = 0;
    'pieces: while done < bytes.len() {
        match file.write_some(at + done as u64, &bytes[done..])? {
            0 => return Err(ErrorKind::WriteZero.into()),
            count => done += count,
        }
    }
    Ok(())
}

/// Writes so many zeros at a place.
fn write_zeros<F: RandomAccess>(file: &mut F, at: u64, count: usize) -> io::Result<()>
    requires few { count ≤ 512 }
    requires fits { at + count < 2 ^ 64 }
    ensures written { F.tells → OnOk result (F.content file.new ≡ written (F.content file.old) at (replicate count 0)) }
    ensures failed { F.tells → OnErr result (Spoiled at count (F.content file.old) (F.content file.new)) }
{
    let zeros = [0; ZEROS];
    write_all(file, at, &zeros[..count])
}

/// Writes zeros after the end of a file that has fewer than so many bytes. What it has stays.
pub(crate) fn lengthen<F: RandomAccess>(file: &mut F, size: u32) -> Result<(), OpenFault>
    ensures longer { F.tells → OnOk result (F.content file.new ≡ lengthened size (F.content file.old)) }
    ensures kept { F.tells → OnErr result (padded (length (F.content file.old)) (F.content file.new) ≡ F.content file.old) }
{
    let size = u64::from(size);
    let mut len = file.len().map_err(OpenFault::Length)?;
    'zeros: while len < size {
        let count = (size - len).min(ZEROS as u64);
        match write_zeros(file, len, count as usize) {
            Ok(()) => len += count,
            Err(error) => return Err(OpenFault::Lengthen(error)),
        }
    }
    Ok(())
}
