//! What a bank needs of the file that it stands in.

ghost use Rattle.std.specs.Prelude.{◌≡◌, ◌≤◌, ℕ, List, length, take, IfOk, OnErr};
ghost use Rattle.tbl_kinds.specs.Numbers.{piece};
ghost use Rattle.tbl_adapters.specs.Files.{written, Spoiled};

use std::io;

/// A file that is read and written at any place. A call may move fewer bytes than it was asked for.
pub trait RandomAccess: Drop {
    /// Whether the file tells its bytes. Where it doesn't, as a file of the system can't, what is said of them says nothing.
    ghost tells: { Type 0 };

    /// Its bytes, as a read gives them.
    ghost content: { Self → List ℕ };

    /// How many bytes it has.
    fn len(&mut self) -> io::Result<u64>
        ensures len { tells → IfOk result (λ n. n ≡ length (content self.old)) }
        ensures kept { tells → content self.new ≡ content self.old };

    /// Moves bytes from a place on into the front of a piece, and answers how many.
    fn read_some(&mut self, at: u64, into: &mut [u8]) -> io::Result<usize>
        ensures fits { IfOk result (λ n. n ≤ length into.old) }
        ensures read { tells → IfOk result (λ n. take n into.new ≡ piece at n (content self.old)) }
        ensures kept { tells → content self.new ≡ content self.old };

    /// Writes a front of the bytes from a place on, and answers how many. After a failure that range may hold any bytes.
    fn write_some(&mut self, at: u64, bytes: &[u8]) -> io::Result<usize>
        ensures fits { IfOk result (λ n. n ≤ length bytes.now) }
        ensures written { tells → IfOk result (λ n. content self.new ≡ written (content self.old) at (take n bytes.now)) }
        ensures failed { tells → OnErr result (Spoiled at (length bytes.now) (content self.old) (content self.new)) };
}
