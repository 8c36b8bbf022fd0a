ghost use Rattle.std.specs.Prelude.{◌≡◌, ◌&&◌, false};
ghost use Rattle.tbl_model.specs.Tables.{has_option, option_bits};

use bitflags::Flags;
use buffer_pairs::Image;
use std::alloc::Global;
use std::test::Fail;
use tbl_kinds::{Name, Options};
use tbl_registry::{NewTable, Tables};

/// Registers a table of four bytes under the name `A.T` for application 1, which has an image.
fn register(alloc: Global, tables: &mut Tables, flags: Options) -> Result<(), Fail>
    requires { (has_option 0x0002 (option_bits flags) && has_option 0x0001 (option_bits flags)) ≡ false }
{
    let plan = NewTable {
        name: Name::of(b"A.T"),
        size: 4,
        flags,
        validator: None,
        first: Some(Image::of(alloc, &[1, 2, 3, 4])?),
    };
    if tables.find(plan.name.bytes()).is_some() {
        return Err(Fail::new("there is such a table"));
    }
    let _handle = tables.add(1, plan)?;
    Ok(())
}

/// The options of the table that was registered first.
fn options(tables: &Tables) -> Option<u16> {
    Some(tables.row(0)?.flags.bits())
}

#[test]
fn a_table_is_no_longer_critical(rt: HostRuntime) -> Result<(), Fail> {
    let mut tables = Tables::make(rt.alloc())?;
    register(rt.alloc(), &mut tables, Options::from_bits_retain(0x0008))?;
    let before = options(&tables);
    if tables.row(0).is_some() {
        tables.not_critical(0);
    }
    assert!(rt; before == Some(0x0008) && options(&tables) == Some(0));
    Ok(())
}
