// The critical tables of a session, found by its entries, and their images.
use crate::changes::{full_name, registration_of, takes_block};
use crate::play::{Fault, Scenario, Service, behind, close};
use crate::recovery::{image_in, read_image};
use crate::tables::{Change, Image, Registration, Table};
use check_word::check16;
use std::alloc::AllocError;
use std::collections::BTreeMap;
use tbl_kinds::{Actor, Bytes, Entry, Name16, Name20, Outcome, Request, Status};

/// What is known of a session up to a request of it.
#[derive(Drop)]
struct Finder<'a> {
    scenario: &'a Scenario<'a>,
    history: &'a [Entry],
    /// The names under which applications run.
    running: BTreeMap<u8, Name20>,
    /// The table that each handle was given for, by its place among the tables.
    handles: BTreeMap<u32, usize>,
    tables: Vec<Table>,
}

/// The image that a handle's table has.
fn image_of(core: &mut Service, actor: Actor, handle: u16, size: u32) -> Result<Bytes, Fault> {
    match read_image(core, actor, handle, size)? {
        Some(bytes) => Ok(bytes),
        None => Err(Fault::Full),
    }
}

/// The image that a handle's table has after the request at a place.
fn image_behind(
    scenario: &Scenario<'_>,
    place: usize,
    actor: Actor,
    handle: u16,
    size: u32,
) -> Result<Bytes, Fault> {
    let mut core = behind(scenario, place.saturating_add(1))?;
    let image = image_of(&mut core, actor, handle, size);
    close(core);
    image
}

impl<'a> Finder<'a> {
    fn make(scenario: &'a Scenario<'a>, history: &'a [Entry]) -> Finder<'a> {
        let alloc = scenario.alloc;
        Finder {
            scenario,
            history,
            running: BTreeMap::new(alloc),
            handles: BTreeMap::new(alloc),
            tables: Vec::new(alloc),
        }
    }

    /// The place of a table among those that are known.
    fn place_of(&self, name: &[u8]) -> Option<usize> {
        for (place, table) in self.tables.iter().enumerate() {
            if table.name.as_bytes() == name {
                return Some(place);
            }
        }
        None
    }

    /// Adds a change of a table.
    fn add(&mut self, table: usize, place: usize, change: Change) -> Result<(), AllocError> {
        match self.tables.as_mut_slice().get_mut(table) {
            Some(table) => table.add(place, change),
            None => Ok(()),
        }
    }

    /// Takes note of the tables whose blocks a request takes away.
    fn see_taken(&mut self, place: usize, entry: &Entry) -> Result<(), AllocError> {
        for table in &mut self.tables {
            if takes_block(entry, table.name.as_bytes()) {
                table.add(place, Change::Emptied)?;
            }
        }
        Ok(())
    }

    /// A table of this name that is registered at a place. The store may have had its block before, and earlier requests may have
    /// taken that away.
    fn new_table(&self, place: usize, name: &str) -> Result<Table, AllocError> {
        let alloc = self.scenario.alloc;
        let mut table = Table::make(alloc, name.to_string(alloc)?);
        for (earlier, entry) in self.history.iter().take(place).enumerate() {
            if takes_block(entry, name.as_bytes()) {
                table.add(earlier, Change::Emptied)?;
            }
        }
        Ok(table)
    }

    /// An application runs under this name.
    fn start(&mut self, actor: Actor, name: &Name20) -> Result<(), Fault> {
        self.running.insert(actor.number(), name.copy())?;
        Ok(())
    }

    /// A handle was given for the table of this name.
    fn give(&mut self, handle: u32, name: &[u8]) -> Result<(), Fault> {
        match self.place_of(name) {
            Some(table) => {
                self.handles.insert(handle, table)?;
            }
            None => {
                self.handles.remove(&handle);
            }
        }
        Ok(())
    }

    /// The place of the table of this name, which is added if none is known.
    fn known(&mut self, place: usize, name: &str) -> Result<usize, AllocError> {
        if let Some(table) = self.place_of(name.as_bytes()) {
            return Ok(table);
        }
        let table = self.new_table(place, name)?;
        self.tables.push(table)?;
        Ok(self.tables.len().saturating_sub(1))
    }

    /// A table was registered as a critical one.
    fn register(
        &mut self,
        place: usize,
        name: &str,
        registration: Registration,
        status: Status,
    ) -> Result<(), AllocError> {
        let table = self.known(place, name)?;
        if status == Status::SUCCESS {
            self.add(table, place, Change::Emptied)?;
        }
        self.add(table, place, Change::Registered(registration))
    }

    /// A table was registered under its full name, critical or not.
    fn see_named(
        &mut self,
        place: usize,
        entry: &Entry,
        app: &Name20,
        full: &str,
    ) -> Result<(), Fault> {
        if let Some(registration) = registration_of(entry, app) {
            self.register(place, full, registration, entry.reply.status)?;
        }
        self.give(entry.reply.detail, full.as_bytes())
    }

    /// A table was registered by an application, critical or not.
    fn see_register(&mut self, place: usize, entry: &Entry, name: &Name16) -> Result<(), Fault> {
        let Some(app) = self.running.get(&entry.actor.number()) else {
            return Ok(());
        };
        let app = app.copy();
        let full = full_name(self.scenario.alloc, &app, name)?;
        self.see_named(place, entry, &app, &full)
    }

    /// The number of the next image of a table, and how many bytes the table has.
    fn next_image(&self, table: usize, place: usize) -> Option<(u32, u32)> {
        let table = self.tables.get(table)?;
        let registration = table.registration(place)?;
        Some((table.image_count().saturating_add(1), registration.size))
    }

    /// An image of a table was copied into its block.
    fn see_copy(&mut self, place: usize, actor: Actor, handle: u16) -> Result<(), Fault> {
        let Some(table) = self.handles.get(&u32::from(handle)) else {
            return Ok(());
        };
        let table = *table;
        let Some((number, size)) = self.next_image(table, place) else {
            return Ok(());
        };
        let bytes = image_behind(self.scenario, place, actor, handle, size)?;
        let crc = check16(bytes.bytes());
        self.add(table, place, Change::Copied(Image { number, crc, bytes }))?;
        Ok(())
    }

    /// A request called the store, and each of its calls was done.
    fn see_call(&mut self, place: usize, entry: &Entry) -> Result<(), Fault> {
        match &entry.request {
            Request::LoadImage { handle, .. }
            | Request::LoadFile { handle, .. }
            | Request::Update { handle }
            | Request::Manage { handle } => self.see_copy(place, entry.actor, *handle),
            _ => Ok(()),
        }
    }

    /// Takes note of an entry of the session.
    fn see(&mut self, place: usize, entry: &Entry) -> Result<(), Fault> {
        match &entry.request {
            Request::Start { name } if entry.reply.status == Status::SUCCESS => {
                self.start(entry.actor, name)
            }
            Request::Register { name, .. } => self.see_register(place, entry, name),
            Request::Share { name } if entry.reply.status == Status::SUCCESS => {
                self.give(entry.reply.detail, name.bytes())
            }
            Request::Reset { .. } | Request::Command { .. } => Ok(self.see_taken(place, entry)?),
            _ if entry.given.outcome() == Outcome::Done => self.see_call(place, entry),
            _ => Ok(()),
        }
    }

    /// Takes note of all entries of the session.
    fn see_all(&mut self) -> Result<(), Fault> {
        for (place, entry) in self.history.iter().enumerate() {
            self.see(place, entry)?;
        }
        Ok(())
    }

    /// Looks which image of each table the store has as the session begins.
    fn look_at_store(&mut self) -> Result<(), Fault> {
        for table in &mut self.tables {
            table.stored = stored_image(self.scenario, table)?;
        }
        Ok(())
    }
}

/// The image of a table that the store has as the session begins.
fn stored_image(scenario: &Scenario<'_>, table: &Table) -> Result<Option<Image>, Fault> {
    let Some(wanted) = table.registration(0) else {
        return Ok(None);
    };
    let found = image_in(scenario.alloc, scenario.store, wanted)?;
    Ok(found.map(|bytes| Image {
        number: 0,
        crc: check16(bytes.bytes()),
        bytes,
    }))
}

/// The critical tables of a session that was played.
pub(crate) fn tables_of(scenario: &Scenario<'_>, history: &[Entry]) -> Result<Vec<Table>, Fault> {
    let mut finder = Finder::make(scenario, history);
    finder.see_all()?;
    finder.look_at_store()?;
    Ok(finder.tables)
}
