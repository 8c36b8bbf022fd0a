ghost use Rattle.std.specs.Prelude.{◌≡◌, ◌+◌, ◌<◌, ◌≤◌, ◌++◌, length, drop, IfSome, is_some};
ghost use Rattle.std.specs.List.{count_by, list_all, position_or_len};
ghost use Rattle.std.specs.Str.{bytes_eq};
ghost use Rattle.std.specs.Cmp.{partial_equiv_from_equiv};
ghost use Rattle.std.specs.Cmp.Lexicographic.{nat_list_eq_equiv};
ghost use Rattle.std.specs.Cmp.Rules.{hashing};
ghost use Rattle.std.specs.Hash as fed;
ghost use Rattle.std.proofs.Common.{rules};
ghost use Rattle.tbl_kinds.specs.Names.{is_zero, name_in, name_field, is_printable_byte, is_name, HasNoZero};
ghost use Rattle.tbl_kinds.specs.Records.{FitsField};
ghost use Rattle.tbl_kinds.specs.Heads.{is_name_field};

use crate::bytes::Bytes;
use std::hash::{Hash, Hasher};
use std::marker::Model;

/// A name of at most `N` bytes, none of them zero, as a field of `N` bytes holds it: with zeros after it.
#[derive(Drop)]
pub struct Name<const N: usize> {
    field: [u8; N],
    len: u8,
}

impl<const N: usize> Model for Name<N> {
    ghost use Rattle.std.specs.Prelude.{ℕ, List, take};
    ghost use Rattle.tbl_kinds.specs.Names.{HoldsName};

    ghost Value = { List ℕ };

    ghost view = { λ n. take n.len n.field };

    ghost invariant = { λ n. HoldsName N n.len n.field };
}

/// Two names are the same where their fields are.
impl<const N: usize> PartialEq for Name<N> {
    ghost eq = { λ a b. bytes_eq a b };

    ghost laws = { partial_equiv_from_equiv nat_list_eq_equiv };

    #[tactic(auto, using(crate::proofs::NameFields::same_fields))]
    fn eq(&self, other: &Name<N>) -> bool {
        self.field == other.field
    }
}

impl<const N: usize> Eq for Name<N> {
    ghost laws = { nat_list_eq_equiv };
}

impl<const N: usize> Hash for Name<N> {
    ghost hash_input = { λ n. fed.slice fed.u8 n };

    ghost respects_eq = { Prim.search (hashing, rules) };

    fn hash<H: Hasher>(&self, state: &mut H) {
        self.bytes().hash(state);
    }
}

/// The short name of a table or a block.
pub type Name16 = Name<16>;

/// The name of an application.
pub type Name20 = Name<20>;

/// A full name: application, dot, short name.
pub type Name40 = Name<40>;

/// The name of a file.
pub type Name64 = Name<64>;

/// Where the first zero byte stands, or else the end.
fn first_zero(field: &[u8]) -> usize
    ensures { result ≡ position_or_len is_zero field.now }
{
    for (i, byte) in field.iter().enumerate() {
        if *byte == 0 {
            return i;
        }
    }
    field.len()
}

/// The bytes before the first zero byte, or all of them.
#[tactic(auto, using(crate::proofs::Names::reads_itself))]
fn read_name(field: &[u8]) -> &[u8]
    ensures name { result.now ≡ name_in field.now }
    ensures within { length result.now ≤ length field.now }
    ensures no_zero { HasNoZero result.now }
{
    &field[..first_zero(field)]
}

// This and `all_printable` look at every byte: a loop that ends early takes one byte at a time.
#[inline]
fn zero_count(field: &[u8]) -> u8
    requires { length field.now < 256 }
    ensures { result ≡ count_by is_zero field.now }
{
    let mut count = 0;
    for byte in field {
        if *byte == 0 {
            count += 1;
        }
    }
    count
}

/// Whether a field of which so many bytes stand before the first zero byte has zeros alone after them.
#[inline]
#[tactic(auto, using(crate::proofs::Names::zeros_alone))]
fn ends_in_zeros(field: &[u8], len: usize) -> bool
    requires small { length field.now < 256 }
    requires len { len ≡ position_or_len is_zero field.now }
    requires within { len ≤ length field.now }
    ensures { result ≡ list_all is_zero (drop len field.now) }
{
    len + usize::from(zero_count(field)) == field.len()
}

fn is_printable(byte: u8) -> bool
    ensures { result ≡ is_printable_byte byte }
{
    0x21 <= byte && byte <= 0x7e
}

fn all_printable(bytes: &[u8]) -> bool
    ensures { result ≡ list_all is_printable_byte bytes.now }
{
    bytes
        .iter()
        .fold(true, |so_far, byte| so_far & is_printable(*byte))
}

impl<const N: usize> Name<N> {
    /// The bytes before the first zero byte of a field of `N` bytes, or all of them.
    #[tactic(auto, using(crate::proofs::NameFields::before_zeros))]
    pub fn of(field: &[u8]) -> Name<N>
        requires small { N < 256 }
        requires within { length field.now ≤ N }
        ensures { result ≡ name_in field.now }
    {
        let name = read_name(field);
        let mut own = [0; N];
        own[..name.len()].copy_from_slice(name);
        Name {
            field: own,
            len: name.len() as u8,
        }
    }

    /// The name that a field of `N` bytes is written for. None where a byte after the field's first zero byte isn't zero.
    #[inline]
    #[tactic(auto, using(crate::proofs::NameFields::whole_field, crate::proofs::NameFields::written_again))]
    pub fn exact(field: &[u8]) -> Option<Name<N>>
        requires small { N < 256 }
        requires len { length field.now ≡ N }
        ensures right { is_some result ≡ is_name_field field.now }
        ensures name { IfSome result (λ name. name ≡ name_in field.now) }
        ensures field { IfSome result (λ name. name_field N name ≡ field.now) }
        ensures fits { IfSome result (λ name. FitsField N name) }
    {
        let mut own = [0; N];
        own.copy_from_slice(field);
        let len = read_name(field).len();
        if !ends_in_zeros(&own, len) {
            return None;
        }
        Some(Name {
            field: own,
            len: len as u8,
        })
    }

    /// How many bytes the field of this name has: `N`.
    pub fn field_len(&self) -> usize
        ensures len { result ≡ length (name_field N self.now) }
        ensures width { result ≡ N }
    {
        let _bytes = self.bytes();
        N
    }

    /// The field of this name: its bytes, and zeros up to `N` in all.
    pub fn field(&self) -> [u8; N]
        ensures bytes { result ≡ name_field N self.now }
        ensures len { length (name_field N self.now) ≡ N }
        ensures fits { FitsField N self.now }
    {
        self.field
    }

    /// Appends the field of this name.
    pub fn append_field(&self, out: &mut Bytes)
        requires { length (name_field N self.now) ≤ out.old.spare }
        ensures bytes { out.new.list ≡ out.old.list ++ name_field N self.now }
        ensures room { out.old.spare ≤ out.new.spare + length (name_field N self.now) }
        ensures fits { FitsField N self.now }
    {
        out.append(&self.field);
    }

    /// The bytes, at most `N`.
    pub fn bytes(&self) -> &[u8]
        ensures bytes { result.now ≡ self.now }
        ensures within { length result.now ≤ N }
        ensures no_zero { HasNoZero result.now }
    {
        &self.field[..usize::from(self.len)]
    }

    /// The same name once more. It takes no memory.
    pub fn copy(&self) -> Name<N>
        ensures { result ≡ self.now }
    {
        Name {
            field: self.field,
            len: self.len,
        }
    }

    /// Whether it is a name: one byte or more, each from 0x21 to 0x7E.
    pub fn is_name(&self) -> bool
        ensures { result ≡ is_name self.now }
    {
        let bytes = self.bytes();
        !bytes.is_empty() && all_printable(bytes)
    }
}
