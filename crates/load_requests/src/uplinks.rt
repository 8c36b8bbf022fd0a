//! Files that the ground uplinks.

ghost use Rattle.std.specs.Prelude.{◌≡◌, IfOk, OnErr};
ghost use Rattle.tbl_model.specs.State.{State};
ghost use Rattle.tbl_model.specs.Effects.{answered_left};
ghost use Rattle.tbl_model.specs.Uplinks.{file_effect};

use file_drawer::{Contents, Drawer, PutFault};
use tbl_kinds::{Answer, Memory, Status, Uplink};

/// The most bytes of a file.
const FILE_LIMIT: usize = 32_768;

/// The ground uplinks a file: it is put into the drawer, or the answer says why not. Memory is taken last, when nothing else refuses the
/// file. The history and the drawer have many bytes in the same memory.
#[inline(never)]
pub fn file(drawer: &mut Drawer, file: &mut Uplink) -> Result<Answer, Memory>
    ensures effect { IfOk result (λ answer. (s : State) → s.drawer ≡ drawer.old
        → file_effect s file.old.name file.old.bytes ≡ answered_left s answer (record s { drawer = drawer.new })) }
    ensures file { file.new ≡ file.old }
    ensures err { OnErr result (drawer.new ≡ drawer.old) }
{
    let name = file.name();
    if !name.is_name() {
        return Ok(Answer::plain(Status::ERR_BAD_NAME));
    }
    if file.bytes().len() > FILE_LIMIT {
        return Ok(Answer::plain(Status::ERR_FILE_TOO_LARGE));
    }
    let contents = Contents::uplinked(file)?;
    match drawer.put(&name, contents) {
        Ok(_) => Ok(Answer::plain(Status::SUCCESS)),
        Err(PutFault::Full) => Ok(Answer::plain(Status::ERR_DRAWER_FULL)),
        Err(PutFault::Memory) => Err(Memory),
    }
}
