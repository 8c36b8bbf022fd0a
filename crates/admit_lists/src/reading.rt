//! Reads lists of identifiers.

ghost use Rattle.std.specs.Prelude.{◌≡◌, ◌↔◌, ◌≤◌, ℕ, List, ◌∷◌, [], length, Some, IfSome};
ghost use Rattle.std.specs.List.{position_or_len};
ghost use Rattle.tbl_kinds.specs.Admitted.{Admitted};
ghost use Rattle.admit_lists.specs.Lists.{is_comma, SpellsId, SpellsList, SpellsAdmit};

use arrayvec::ArrayVec;
use plain_text::read_decimal;
use tbl_kinds::Admit;

/// At most two identifiers.
type Ids = ArrayVec<u32, 2>;

/// Where the first comma stands, or else the end.
fn comma_in(text: &[u8]) -> usize
    ensures comma { result ≡ position_or_len is_comma text.now }
    ensures within { result ≤ length text.now }
{
    for (i, byte) in text.iter().enumerate() {
        if *byte == b',' {
            return i;
        }
    }
    text.len()
}

/// The identifier that a text spells.
fn read_id(text: &[u8]) -> Option<u32>
    ensures { (id : ℕ) → (result ≡ Some id) ↔ SpellsId text.now id }
{
    let number = read_decimal(text, u64::from(u32::MAX))?;
    Some(number as u32)
}

/// The list of the one identifier that a text spells.
fn read_one(text: &[u8]) -> Option<Ids>
    ensures one { (id : ℕ) → (result ≡ Some (record { items = id ∷ [] })) ↔ SpellsId text.now id }
    ensures len { IfSome result (λ ids. length ids.items ≡ 1) }
{
    let id = read_id(text)?;
    let mut ids = Ids::new();
    ids.push(id);
    Some(ids)
}

/// The list of the two identifiers that two texts spell.
fn read_two(first: &[u8], second: &[u8]) -> Option<Ids>
    ensures two { (a b : ℕ) → (result ≡ Some (record { items = a ∷ b ∷ [] })) ↔ (SpellsId first.now a × SpellsId second.now b) }
    ensures len { IfSome result (λ ids. length ids.items ≡ 2) }
{
    let first = read_id(first)?;
    let second = read_id(second)?;
    let mut ids = Ids::new();
    ids.push(first);
    ids.push(second);
    Some(ids)
}

/// The list that a word spells.
fn read_list(word: &[u8]) -> Option<Ids>
    ensures { (ids : List ℕ) → (result ≡ Some (record { items = ids })) ↔ SpellsList word.now ids }
{
    if word == b"any".as_slice() {
        return Some(Ids::new());
    }
    let comma = comma_in(word);
    if comma == word.len() {
        return read_one(word);
    }
    let (_, second) = word.split_at(comma + 1);
    read_two(&word[..comma], second)
}

/// The lists that two words spell, of spacecraft and of processors: `any`, or one or two decimal numbers below 2^32 with a comma
/// between them, without signs and leading zeros. None where one of them is no such word.
pub fn read_admit(spacecraft: &[u8], processor: &[u8]) -> Option<Admit>
    ensures { (admit : Admitted) → (result ≡ Some admit) ↔ SpellsAdmit spacecraft.now processor.now admit }
{
    Some(Admit {
        spacecraft: read_list(spacecraft)?,
        processor: read_list(processor)?,
    })
}
