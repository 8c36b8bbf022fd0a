//! Fields put one after the other into bytes of a fixed size, before these are appended as one piece.

ghost use Rattle.std.specs.Prelude.{◌≡◌, ◌+◌, ◌≤◌, ◌++◌, length};
ghost use Rattle.arrayvec.specs.ArrayVec.{array_vec_len};

use arrayvec::ArrayVec;

/// Puts the bytes of a field last. It takes no memory: there is room for them.
pub fn put<const SIZE: usize>(body: &mut ArrayVec<u8, SIZE>, field: &[u8])
    requires { array_vec_len body.old + length field.now ≤ SIZE }
    ensures bytes { body.new.items ≡ body.old.items ++ field.now }
    ensures len { array_vec_len body.new ≡ array_vec_len body.old + length field.now }
{
    let _ = body.try_extend_from_slice(field);
}
