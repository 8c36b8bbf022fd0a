ghost use Rattle.std.specs.Prelude.{◌≡◌, ℕ, ◌+◌, ◌<◌, ◌^◌, List, ◌++◌, IfSome, Some};
ghost use Rattle.tbl_kinds.specs.Transcript.{EntryFields, IsEntry, entry_spelling, end_bytes};
ghost use Rattle.transcript.specs.Reading.{head_of, BeginsWithEntry, BeginsWithEnd};

use tbl_kinds::u32_at;

/// An entry as it stands in a transcript, without its reply's bytes and packets.
#[derive(Clone, Copy, Debug, PartialEq, Eq)]
pub struct EntryHead {
    /// Which entry of the history it is, counted from 0.
    pub place: u32,
    /// 0 for the ground, or the number of the application.
    pub actor: u8,
    pub status: u32,
    pub detail: u32,
    /// How many bytes the reply has.
    pub bytes_len: u32,
    /// How many bytes its packets have.
    pub packets_len: u32,
}

/// What ends a transcript.
#[derive(Clone, Copy, Debug, PartialEq, Eq)]
pub struct EndRecord {
    /// The status of the run.
    pub status: u8,
    /// The number of entries.
    pub count: u32,
    /// The number of bytes of the spellings of all their requests.
    pub offset: u32,
}

/// The head of the entry whose spelling the bytes begin with, none where they begin with no entry's. The place FFFFFFFF
/// begins the end record and is no entry's.
pub fn read_entry(bytes: &[u8]) -> Option<EntryHead>
    ensures found { IfSome result (λ head. BeginsWithEntry bytes.now head) }
    ensures only { (fields : EntryFields) (more : List ℕ) → IsEntry fields → bytes.now ≡ entry_spelling fields ++ more → result ≡ Some (head_of fields) }
{
    if bytes.len() < 17 {
        return None;
    }
    let bytes_len = u32_at(bytes, 13);
    let packets_at = 17 + bytes_len as usize;
    if bytes.len() < packets_at + 4 {
        return None;
    }
    let packets_len = u32_at(bytes, packets_at);
    if bytes.len() < packets_at + 4 + packets_len as usize {
        return None;
    }
    let place = u32_at(bytes, 0);
    let actor = bytes[4];
    if place == u32::MAX {
        return None;
    }
    if actor > 16 {
        return None;
    }
    Some(EntryHead {
        place,
        actor,
        status: u32_at(bytes, 5),
        detail: u32_at(bytes, 9),
        bytes_len,
        packets_len,
    })
}

/// The end record whose spelling the bytes begin with, none where they begin with none.
pub fn read_end(bytes: &[u8]) -> Option<EndRecord>
    ensures found { IfSome result (λ end. BeginsWithEnd bytes.now end) }
    ensures only { (end : EndRecord) (more : List ℕ) → end.count < 2 ^ 32 → end.offset < 2 ^ 32
        → bytes.now ≡ end_bytes end.status end.count end.offset ++ more → result ≡ Some end }
{
    if bytes.len() < 13 {
        return None;
    }
    let mark = u32_at(bytes, 0);
    if mark != u32::MAX {
        return None;
    }
    Some(EndRecord {
        status: bytes[4],
        count: u32_at(bytes, 5),
        offset: u32_at(bytes, 9),
    })
}
