//! What is done to the file `cds.store` by others than the store file.

use crate::words::{Words, dotted};
use std::alloc::AllocError;
use std::fs::{self, OpenOptions, Permissions};
use std::io;
use std::os::unix::fs::{PermissionsExt, symlink};

const NAME: &str = "cds.store";

/// `cut N`: the file is made so many bytes long.
fn cut(rt: &HostRuntime, len: u32) -> io::Result<()> {
    let file = OpenOptions::new().write(true).open(rt, NAME)?;
    file.set_len(u64::from(len))
}

/// `show`: how many bytes the file has, and the first of them.
fn show(rt: &HostRuntime) -> io::Result<String> {
    let mut bytes = fs::read(rt, NAME)?;
    let len = bytes.len();
    let shown = len.min(32);
    Ok(format!(in rt.alloc(); "{len} {}", dotted(&mut bytes[..shown]))?)
}

/// `put BYTES` makes the file, `folder` a folder of that name, and `full` a link to a device on which there is never room;
/// `read-only` takes the right to write away; `remove` and `remove-folder` take them away.
fn change(rt: &HostRuntime, call: &str, words: &mut Words) -> io::Result<()> {
    match call {
        "put" => fs::write(rt, NAME, words.next()),
        "cut" => cut(rt, words.number()),
        "folder" => fs::create_dir(rt, NAME),
        "full" => symlink(rt, "/dev/full", NAME),
        "read-only" => fs::set_permissions(rt, NAME, Permissions::from_mode(0o444)),
        "remove-folder" => fs::remove_dir(rt, NAME),
        _ => fs::remove_file(rt, NAME),
    }
}

/// `show`, or a change of the file.
fn play(rt: &HostRuntime, call: &str, words: &mut Words) -> io::Result<String> {
    if call == "show" {
        return show(rt);
    }
    change(rt, call, words)?;
    Ok("ok".to_string(rt.alloc())?)
}

/// What came of `show` or a change of the file; where it failed, what the system said.
pub(crate) fn call(rt: &HostRuntime, call: &str, words: &mut Words) -> Result<String, AllocError> {
    match play(rt, call, words) {
        Ok(told) => Ok(told),
        Err(error) => error.to_string(rt.alloc()),
    }
}
