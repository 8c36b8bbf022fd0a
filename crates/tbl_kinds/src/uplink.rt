//! Files as requests have them.

ghost use Rattle.std.specs.Prelude.{◌≡◌, ◌≤◌, ◌++◌, length, take, drop, IfOk, IsTrue};
ghost use Rattle.tbl_kinds.specs.Names.{name_in, name_field};
ghost use Rattle.tbl_kinds.specs.Records.{FitsField};
ghost use Rattle.tbl_kinds.specs.Heads.{is_name_field};

use crate::bytes::{Bytes, Memory};
use crate::name::{Name, Name64};
use std::alloc::Global;
use std::marker::Model;

/// How many bytes the field of a file's name has.
pub const FILE_NAME_LENGTH: usize = 64;

/// An uplinked file as it was spelled: the field of its name, and then its bytes.
#[derive(Drop)]
pub struct Uplink {
    spelling: Bytes,
}

impl Model for Uplink {
    ghost use Rattle.std.specs.Prelude.{◌≡◌, ◌≤◌, length, take, drop};
    ghost use Rattle.tbl_kinds.specs.Names.{name_in, name_field};
    ghost use Rattle.tbl_kinds.specs.Uplinks.{Uplinked};

    ghost Value = { Uplinked };

    ghost view = { λ u. record { name = name_in (take 64 u.spelling.list); bytes = drop 64 u.spelling.list } };

    ghost invariant = { λ u. (64 ≤ length u.spelling.list) × (name_field 64 (name_in (take 64 u.spelling.list)) ≡ take 64 u.spelling.list) };
}

impl Uplink {
    /// The file of this spelling.
    #[tactic(auto, using(crate::proofs::NameFields::read_again))]
    pub fn of(spelling: Bytes) -> Uplink
        requires len { 64 ≤ length spelling.list }
        requires name { IsTrue (is_name_field (take 64 spelling.list)) }
        ensures { result ≡ record { name = name_in (take 64 spelling.list); bytes = drop 64 spelling.list } }
    {
        Uplink { spelling }
    }

    /// The name.
    pub fn name(&self) -> Name64
        ensures { result ≡ self.now.name }
    {
        let (field, _) = self.spelling.bytes().split_at(FILE_NAME_LENGTH);
        Name::of(field)
    }

    /// The bytes of the file.
    pub fn bytes(&self) -> &[u8]
        ensures { result.now ≡ self.now.bytes }
    {
        let (_, bytes) = self.spelling.bytes().split_at(FILE_NAME_LENGTH);
        bytes
    }

    /// The field of its name, and then its bytes.
    #[tactic(auto, using(crate::proofs::NameFields::spelled, crate::proofs::NameFields::read_fits))]
    pub fn spelling(&self) -> &[u8]
        ensures bytes { result.now ≡ name_field 64 self.now.name ++ self.now.bytes }
        ensures fits { FitsField 64 self.now.name }
    {
        self.spelling.bytes()
    }

    /// The spelling once more, where it is long in the same memory.
    #[tactic(auto, using(crate::proofs::NameFields::spelled))]
    pub fn again(&mut self) -> Result<Bytes, Memory>
        ensures same { self.new ≡ self.old }
        ensures spelling { IfOk result (λ spelling. spelling.list ≡ name_field 64 self.old.name ++ self.old.bytes) }
    {
        self.spelling.again()
    }

    /// Where the memory of its bytes comes from.
    pub fn allocator(&self) -> Global {
        self.spelling.allocator()
    }
}

/// A file's name in memory of its own. Few requests have one, and it is longer than what the others have.
#[derive(Drop)]
pub struct FileName {
    name: Box<Name64>,
}

impl Model for FileName {
    ghost use Rattle.std.specs.Prelude.{ℕ, List};

    ghost Value = { List ℕ };

    ghost view = { λ f. f.name.value };
}

impl FileName {
    /// A name in memory of its own.
    pub fn of(alloc: Global, name: Name64) -> Result<FileName, Memory>
        ensures { IfOk result (λ file. file ≡ name) }
    {
        Ok(FileName {
            name: Box::new(alloc, name)?,
        })
    }

    /// The name.
    pub fn name(&self) -> &Name64
        ensures { result.now ≡ self.now }
    {
        &self.name
    }
}
