//! The report as text.

ghost use Rattle.std.specs.Prelude.{◌≡◌, ◌<◌, ◌++◌, count_by, true, IfOk, OnOk};
ghost use Rattle.std.specs.Fmt.{digit_glyph};
ghost use Rattle.table_watch.specs.Report.{changed_text, counts_line, is_changed, line_of, report, seen_text, word_text};

use crate::watch::Look;
use plain_text::{append_decimal, append_text};
use std::alloc::Global;
use tbl_kinds::{Bytes, Memory};

fn digit_of(nibble: u8) -> u8
    requires { nibble < 16 }
    ensures { result ≡ digit_glyph true nibble }
{
    if nibble < 10 {
        b'0' + nibble
    } else {
        b'A' - 10 + nibble
    }
}

/// Appends a check word as four hexadecimal digits.
fn put_word(out: &mut Bytes, word: u16) -> Result<(), Memory>
    ensures { OnOk result (out.new.list ≡ out.old.list ++ word_text word) }
{
    let digits = [
        digit_of((word / 4096) as u8),
        digit_of((word / 256 % 16) as u8),
        digit_of((word / 16 % 16) as u8),
        digit_of((word % 16) as u8),
    ];
    append_text(out, &digits)
}

/// Appends that the check word was another one.
fn put_changed(out: &mut Bytes, old: u16) -> Result<(), Memory>
    ensures { OnOk result (out.new.list ≡ out.old.list ++ changed_text old) }
{
    append_text(out, b"changed ")?;
    put_word(out, old)?;
    Ok(())
}

/// Appends what a look saw.
fn put_seen(out: &mut Bytes, before: Option<u16>, word: u16) -> Result<(), Memory>
    ensures { OnOk result (out.new.list ≡ out.old.list ++ seen_text before word) }
{
    match before {
        None => append_text(out, b"first"),
        Some(old) if old == word => append_text(out, b"same"),
        Some(old) => put_changed(out, old),
    }
}

/// Appends the line of a look.
fn put_line(out: &mut Bytes, look: &Look) -> Result<(), Memory>
    ensures { OnOk result (out.new.list ≡ out.old.list ++ line_of look.now) }
{
    append_decimal(out, look.place)?;
    append_text(out, b" ")?;
    append_text(out, look.name.bytes())?;
    append_text(out, b" ")?;
    put_word(out, look.word)?;
    append_text(out, b" ")?;
    put_seen(out, look.before, look.word)?;
    append_text(out, b"\n")
}

/// Whether the look saw another check word than the one before.
fn is_changed(look: &Look) -> bool
    ensures { result ≡ is_changed look.now }
{
    match look.before {
        Some(old) => old != look.word,
        None => false,
    }
}

/// How many looks saw a change.
fn changed_count(looks: &[Look]) -> usize
    ensures { result ≡ count_by is_changed looks.now }
{
    let mut count = 0;
    'looks: for look in looks {
        if is_changed(look) {
            count += 1;
        }
    }
    count
}

/// Appends how many looks there were, and how many saw a change.
fn put_counts(out: &mut Bytes, looks: &[Look]) -> Result<(), Memory>
    ensures { OnOk result (out.new.list ≡ out.old.list ++ counts_line looks.now) }
{
    append_text(out, b"watched ")?;
    append_decimal(out, looks.len() as u64)?;
    append_text(out, b" changed ")?;
    append_decimal(out, changed_count(looks) as u64)?;
    append_text(out, b"\n")
}

/// The report.
pub(crate) fn write_report(alloc: Global, looks: &[Look]) -> Result<Bytes, Memory>
    ensures { IfOk result (λ text. text.list ≡ report looks.now) }
{
    let mut text = Bytes::make(alloc, 0)?;
    'looks: for look in looks {
        put_line(&mut text, look)?;
    }
    put_counts(&mut text, looks)?;
    Ok(text)
}
