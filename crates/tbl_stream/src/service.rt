//! What a service is started over.

use std::alloc::Global;
use tbl_outside::{Bank, KitEntry, Validator};

/// What a service is started over: the memory that it allocates from, the bank with its preserved memory, and the validation functions
/// that its applications have, which are numbered from 0.
#[derive(Drop)]
pub struct Service<B: Bank, C: Validator> {
    pub alloc: Global,
    pub bank: B,
    pub kit: Vec<KitEntry<C>>,
}
