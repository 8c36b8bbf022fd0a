//! Applications and the tables that they register: the layer above can be sure that each call is one step of what runs and is registered.
#![tactic(auto)]

mod apps;
mod handles;
mod leaving;
mod registering;

pub use apps::{Apps, plan_name};
pub use handles::{notify, row_of, share};
pub use leaving::{app_exit, unregister};
pub use registering::{Registration, plan_table, register, register_plain, register_uncritical};
