//! What requests about tables work on.

use file_drawer::Drawer;
use request_effects::Clock;
use sharing::Apps;
use std::alloc::Global;
use tbl_kinds::Admit;
use tbl_outside::Validator;
use tbl_registry::Tables;
use validation::{Kit, Pending};

/// What requests about tables work on. A request may change several fields in one go, so nothing has to hold of them together.
#[derive(Drop)]
pub struct Desk<C: Validator> {
    pub alloc: Global,
    pub tables: Tables,
    pub apps: Apps,
    pub kit: Kit<C>,
    /// The spacecraft and processors that table files may come from.
    pub admit: Admit,
    pub pending: Pending,
    pub drawer: Drawer,
    pub clock: Clock,
}
