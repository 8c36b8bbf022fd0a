//! Bytes that are kept until more of the input comes.

ghost use Rattle.std.specs.Prelude.{◌≡◌, ◌≤◌, length, drop};

/// Drops so many bytes at the front, which were read. None is moved if that is none of them, as of a long record that isn't whole yet,
/// or all of them.
pub fn drop_front(kept: &mut Vec<u8>, count: usize)
    requires { count ≤ length kept.old.items }
    ensures { kept.new.items ≡ drop count kept.old.items }
{
    if count == 0 {
        return;
    }
    if count == kept.len() {
        return kept.clear();
    }
    let left = kept.len() - count;
    kept.copy_within(count.., 0);
    kept.truncate(left);
}
