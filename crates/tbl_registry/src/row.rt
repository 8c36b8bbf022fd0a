ghost use Rattle.std.specs.Prelude.{◌≡◌, [], ℕ, Some, bit_and};
ghost use Rattle.std.specs.Str.{bytes_eq};
ghost use Rattle.tbl_model.specs.Tables.{is_double, is_dump_only, is_critical, uses_buffer};
ghost use Rattle.tbl_model.specs.Management.{pending_status};

use bitflags::Flags;
use buffer_pairs::{Buffers, Image};
use std::marker::Model;
use tbl_kinds::{Name40, Name64, Options, Status};
use tbl_model::Notice;

mod copying;
mod dumps;
mod images;
mod info;
mod loads;

pub(crate) use self::info::RECORD_LENGTH;

/// What a table is registered with (`CFE_TBL_Register`).
#[derive(Drop)]
pub struct NewTable {
    /// Its full name: application, dot, short name.
    pub name: Name40,
    /// How many bytes an image of it has.
    pub size: u32,
    pub flags: Options,
    /// The number that its validation function has in the kit.
    pub validator: Option<u8>,
    /// The image that it begins with, as a recovered one.
    pub first: Option<Image>,
}

/// How far a dump of a dump-only table has come.
#[derive(Clone, Copy, PartialEq, Eq)]
pub enum Dump {
    /// None is requested.
    Quiet,
    /// The ground asked for it.
    Asked,
    /// The owner has filled it (`CFE_TBL_DumpToBuffer`).
    Filled,
}

/// What can be seen of a registered table.
#[derive(Clone, Copy, PartialEq, Eq)]
pub struct RowView {
    /// The application that registered it, from 1 to 16.
    pub owner: u8,
    /// The handle that its registration gave.
    pub handle: u16,
    /// How many bytes an image of it has.
    pub size: u32,
    pub flags: Options,
    /// The number that its validation function has in the kit.
    pub validator: Option<u8>,
    /// How many images it has had since its registration.
    pub count: u32,
    /// Whether a load is open.
    pub load: bool,
    /// Whether the open load was validated since its last change.
    pub checked: bool,
    /// Whether the activation of the open load was requested.
    pub asked: bool,
    pub dump: Dump,
    /// The command packet that notifies the owner of pending work.
    pub notice: Option<Notice>,
}

/// An open load: the image that is being put together.
#[derive(Drop)]
struct OpenLoad {
    image: Image,
    /// Whether it was validated since its last change.
    checked: bool,
}

impl Model for OpenLoad {
    ghost use Rattle.tbl_model.specs.State.{Load};

    ghost Value = { Load };

    ghost view = { λ load. record { image = load.image; checked = load.checked } };
}

/// A dump, with the name of its file. The image of a filled one is what the buffers keep.
#[derive(Drop)]
enum DumpFile {
    Quiet,
    Asked(Name64),
    Filled(Name64),
}

/// A registered table.
#[derive(Drop)]
pub(crate) struct Row {
    name: Name40,
    owner: u8,
    handle: u16,
    size: u32,
    flags: Options,
    validator: Option<u8>,
    count: u32,
    buffers: Buffers,
    load: Option<OpenLoad>,
    asked: bool,
    dump: DumpFile,
    notice: Option<Notice>,
    seconds: u32,
    sub: u16,
    file: Name64,
}

impl Model for Row {
    ghost use Rattle.tbl_model.specs.State.{Table};

    ghost Value = { Table };

    ghost use Rattle.tbl_registry.specs.Rows.{table_of, IsRow};

    ghost view = { table_of };

    ghost invariant = { IsRow };
}

impl Row {
    ghost use Rattle.tbl_registry.specs.Views.{row_view};
    ghost use Rattle.tbl_registry.specs.Rows.{IsTable};
    ghost use Rattle.tbl_registry.specs.Adding.{IsPlan, planned};

    /// A table as its registration makes it.
    #[tactic(auto, using(crate::proofs::Add::one_buffer))]
    pub(crate) fn make(app: u8, handle: u16, plan: NewTable) -> Row
        requires { IsPlan plan }
        ensures { result ≡ planned plan app handle }
    {
        Row {
            name: plan.name,
            owner: app,
            handle,
            size: plan.size,
            flags: plan.flags,
            validator: plan.validator,
            count: plan.first.is_some() as u32,
            buffers: Buffers::make(plan.first, plan.flags.contains(Options::DOUBLE)),
            load: None,
            asked: false,
            dump: DumpFile::Quiet,
            notice: None,
            seconds: 0,
            sub: 0,
            file: Name64::of(&[]),
        }
    }

    /// Whether it has this full name.
    pub(crate) fn has_name(&self, name: &[u8]) -> bool
        ensures { result ≡ bytes_eq self.now.name name.now }
    {
        self.name.bytes() == name
    }

    /// Its full name.
    pub(crate) fn name(&self) -> &Name40
        ensures { result.now ≡ self.now.name }
    {
        &self.name
    }

    /// What can be seen of it.
    pub(crate) fn view(&self) -> RowView
        ensures view { result ≡ row_view self.now }
        ensures table { IsTable self.now }
    {
        RowView {
            owner: self.owner,
            handle: self.handle,
            size: self.size,
            flags: self.flags,
            validator: self.validator,
            count: self.count,
            load: self.load.is_some(),
            checked: self.is_checked(),
            asked: self.asked,
            dump: self.dump(),
            notice: self.notice,
        }
    }

    /// How many images it has had.
    pub(crate) fn count(&self) -> u32
        ensures { result ≡ self.now.count }
    {
        self.count
    }

    /// Whether it has two buffers.
    pub(crate) fn is_double(&self) -> bool
        ensures { result ≡ is_double self.now }
    {
        self.flags.contains(Options::DOUBLE)
    }

    /// Whether it uses a shared working buffer.
    pub(crate) fn uses_buffer(&self) -> bool
        ensures { result ≡ uses_buffer (Some self.now) }
    {
        !self.is_double() && self.load.is_some() || !self.is_quiet()
    }

    /// Whether it is dump-only.
    pub(crate) fn is_dump_only(&self) -> bool
        ensures { result ≡ is_dump_only self.now }
    {
        self.flags.contains(Options::DUMP_ONLY)
    }

    /// Whether it is critical.
    pub(crate) fn is_critical(&self) -> bool
        ensures { result ≡ is_critical self.now }
    {
        self.flags.contains(Options::CRITICAL)
    }

    /// Sets the time of its last update.
    pub(crate) fn set_time(&mut self, seconds: u32, sub: u16)
        ensures { self.new ≡ record self.old { seconds = seconds; sub = sub } }
    {
        self.seconds = seconds;
        self.sub = sub;
    }

    /// Sets the file of its last load from a file.
    pub(crate) fn set_file(&mut self, file: &Name64)
        ensures { self.new ≡ record self.old { file = file.now } }
    {
        self.file = file.copy();
    }

    /// What is pending for it, if no validation is.
    pub(crate) fn pending(&self) -> Status
        ensures { (row : ℕ) → result ≡ pending_status [] row self.now }
    {
        if self.asked {
            Status::INFO_UPDATE_PENDING
        } else if !self.is_quiet() {
            Status::INFO_DUMP_PENDING
        } else {
            Status::SUCCESS
        }
    }

    /// Sets the notice of pending work to its owner.
    pub(crate) fn set_notice(&mut self, notice: Notice)
        ensures { self.new ≡ record self.old { notice = Some notice } }
    {
        self.notice = Some(notice);
    }

    /// Takes the option CRITICAL away.
    pub(crate) fn not_critical(&mut self)
        ensures { self.new ≡ record self.old { options = bit_and self.old.options 0xFFF7 } }
    {
        self.flags.remove(Options::CRITICAL);
    }
}
