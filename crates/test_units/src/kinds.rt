ghost use Rattle.std.specs.Prelude.{◌≡◌, ◌≤◌, [], length, OnOk};

use bitflags::Flags;
use std::test::Fail;
use tbl_kinds::{
    Actor, Answer, Bytes, Memory, Name, Name16, Options, Request, Slots, Status, fits, u16_at,
    u32_at,
};

/// Puts `abc` and then `de` after no bytes, and copies the first three.
fn grow(bytes: &mut Bytes) -> Result<Bytes, Memory>
    requires empty { bytes.old.list ≡ [] }
    requires room { 3 ≤ bytes.old.spare }
    ensures { OnOk result (length bytes.new.list ≡ 5) }
{
    bytes.append(b"ab");
    bytes.append(b"c");
    let copy = bytes.copy()?;
    bytes.reserve(2)?;
    bytes.append(b"de");
    Ok(copy)
}

#[test]
fn bytes_grow_in_reserved_room(rt: HostRuntime) -> Result<(), Fail> {
    let mut bytes = Bytes::make(rt.alloc(), 3)?;
    assert!(rt; bytes.bytes().is_empty());
    let copy = grow(&mut bytes)?;
    assert!(rt; bytes.bytes() == b"abcde".as_slice() && copy.bytes() == b"abc".as_slice());
    bytes.clear();
    assert!(rt; bytes.bytes().is_empty());
    bytes.reserve(5)?;
    bytes.append(b"fghij");
    assert!(rt; bytes.bytes() == b"fghij".as_slice());
    Ok(())
}

#[test]
fn many_bytes_follow_few(rt: HostRuntime) -> Result<(), Fail> {
    let mut bytes = Bytes::make(rt.alloc(), 2)?;
    bytes.append(b"ab");
    bytes.reserve(30)?;
    bytes.append(b"cdefghijklmnopqrstuvwxyz012345");
    assert!(rt; bytes.bytes() == b"abcdefghijklmnopqrstuvwxyz012345".as_slice());
    Ok(())
}

#[test]
fn many_bytes_have_two_owners(rt: HostRuntime) -> Result<(), Fail> {
    let mut bytes = Bytes::of(rt.alloc(), &[7; 30])?;
    let mut copy = bytes.again()?;
    copy.reserve(1)?;
    copy.append(&[8]);
    assert!(rt; bytes.bytes() == [7; 30].as_slice() && bytes.share()?.is_some());
    assert!(rt; copy.bytes().len() == 31 && Bytes::of(rt.alloc(), &[7; 24])?.share()?.is_none());
    Ok(())
}

#[test]
fn a_plain_answer_names_nothing(rt: HostRuntime) {
    let answer = Answer::plain(Status::ERR_BAD_APP);
    assert!(rt; answer.status == Status::ERR_BAD_APP && answer.detail == 0);
}

// Further cases of names and of actors stand in the table of the program test_codecs.
#[test]
fn names_end_before_a_zero(rt: HostRuntime) -> Result<(), Fail> {
    let short: Name16 = Name::of(b"A.T\0\x7FB\0\0\0\0\0\0\0\0\0\0");
    let copy = short.copy();
    assert!(rt;
        short.bytes() == b"A.T".as_slice()
            && copy == short
            && copy.is_name()
            && copy.field_len() == 16
    );
    let mut field = Bytes::make(rt.alloc(), 16)?;
    copy.append_field(&mut field);
    assert!(rt; field.bytes() == b"A.T\0\0\0\0\0\0\0\0\0\0\0\0\0".as_slice());
    Ok(())
}

#[test]
fn a_field_is_of_one_name(rt: HostRuntime) {
    let field = *b"AB\0\0";
    let name = Name::<4>::exact(&field);
    assert!(rt;
        matches!(&name, Some(name) if name.field() == field) && Name::<4>::exact(b"AB\0C").is_none()
    );
}

#[test]
fn slots_stay_in_order(rt: HostRuntime) {
    let mut slots = Slots::make();
    assert!(rt; slots.list().is_empty());
    slots.add(7);
    slots.add(0);
    slots.add(127);
    assert!(rt; slots.list() == b"\x07\0\x7F".as_slice());
}

#[test]
fn requests_fit_their_actors(rt: HostRuntime) {
    assert!(rt;
        Actor::App(16).number() == 16
            && fits(Actor::App(16), &Request::Exit)
            && !fits(Actor::Ground, &Request::Exit)
    );
}

#[test]
fn numbers_have_the_high_byte_first(rt: HostRuntime) {
    let bytes = [0, 1, 2, 3, 4];
    assert!(rt; u16_at(&bytes, 1) == 0x0102 && u32_at(&bytes, 1) == 0x0102_0304);
}

#[test]
fn options_have_three_bits(rt: HostRuntime) -> Result<(), Fail> {
    let options = Options::from_bits(0x0009).ok_or("unknown option")?;
    assert!(rt;
        options.contains(Options::DOUBLE)
            && options.contains(Options::CRITICAL)
            && !options.contains(Options::DUMP_ONLY)
            && options.bits() == 0x0009
    );
    assert!(rt; Options::from_bits(0x000B).is_some());
    for bit in [0x0004, 0x0010, 0x8000] {
        assert!(rt; Options::from_bits(bit).is_none());
    }
    Ok(())
}
