//! A service that C holds by a handle.

ghost use Rattle.std.specs.Prelude.{◌≡◌, Option, Some, None};
ghost use Rattle.std.specs.Option.{option_map};
ghost use Rattle.tbl_c.specs.Serving.{Serving};

use crate::loose::Loose;
use crate::service::Service;
use std::alloc::Global;
use std::marker::Model;
use std::{mem, ptr};

/// A service that C holds, or none. C sees only the address, and contracts see what is there. A handle of zeros is closed.
#[repr(C)]
pub struct Handle {
    at: *mut u8,
    ghost service: { Option Serving },
}

impl Model for Handle {
    ghost use Rattle.tbl_c.specs.Held.{held};

    ghost also_owns = { λ h. held h.at h.service };
}

/// A box that may go to another thread: C may call from any, one at a time.
fn sendable<T: Send>(service: T) -> T
    ensures { result ≡ service }
{
    service
}

impl Handle {
    /// A closed handle.
    fn none() -> Handle
        ensures { result.service ≡ None }
    {
        Handle {
            at: ptr::null_mut(),
        }
    }

    /// A handle for what is at an address.
    fn some(service: Loose<Service, Global>) -> Handle
        ensures { result.service ≡ Some service.value }
    {
        let Loose { at, alloc: _ } = service;
        Handle { at: at as *mut u8 }
    }

    /// What is at the address, if there is anything.
    fn into_loose(self, alloc: Global) -> Option<Loose<Service, Global>>
        ensures { option_map (λ service. service.value) result ≡ self.service }
    {
        let Handle { at } = self;
        if at.is_null() {
            return None;
        }
        Some(Loose {
            at: at as *mut Service,
            alloc,
        })
    }

    /// What the handle holds.
    fn into_box(self, alloc: Global) -> Option<Box<Service>>
        ensures { option_map (λ service. service.value) result ≡ self.service }
    {
        match self.into_loose(alloc) {
            Some(service) => Some(service.into_box()),
            None => None,
        }
    }

    /// A handle for this service.
    fn of(service: Option<Box<Service>>) -> Handle
        ensures { result.service ≡ option_map (λ service. service.value) service }
    {
        match service {
            Some(service) => Handle::some(Loose::of(sendable(service))),
            None => Handle::none(),
        }
    }

    /// Has the handle hold another service, or none, and gives what it held.
    pub(crate) fn replace(
        &mut self,
        alloc: Global,
        service: Option<Box<Service>>,
    ) -> Option<Box<Service>>
        ensures new { self.new.service ≡ option_map (λ service. service.value) service }
        ensures old { option_map (λ service. service.value) result ≡ self.old.service }
    {
        mem::replace(self, Handle::of(service)).into_box(alloc)
    }
}
