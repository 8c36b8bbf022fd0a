//! Places of handles: the first free one, the first of a handle that pins, and a place as the number of its handle.

ghost use Rattle.std.specs.Prelude.{◌≡◌, ◌^◌, ◌<◌, ◌+◌, is_none, IfSome, position, length};
ghost use Rattle.std.specs.Option.{option_map};
ghost use Rattle.access_desc.specs.Steps.{has, pins, pins_old};

use crate::handle_view::HandleView;

/// The first place that is free.
pub(crate) fn first_free(places: &[Option<HandleView>]) -> Option<usize>
    ensures least { result ≡ position is_none places.now }
    ensures within { IfSome result (λ n. n < length places.now) }
{
    places.iter().position(|place| place.is_none())
}

/// The first place of a handle that pins an image of this row's table.
pub(crate) fn first_pin(places: &[Option<HandleView>], row: u8) -> Option<usize>
    ensures least { result ≡ position (has (pins row)) places.now }
    ensures within { IfSome result (λ n. n < length places.now) }
{
    places
        .iter()
        .position(|place| place.is_some_and(|handle| handle.pins(row)))
}

/// The first place of a handle that pins an image of this row's table which isn't the last.
pub(crate) fn first_old_pin(places: &[Option<HandleView>], row: u8) -> Option<usize>
    ensures least { result ≡ position (has (pins_old row)) places.now }
    ensures within { IfSome result (λ n. n < length places.now) }
{
    places
        .iter()
        .position(|place| place.is_some_and(|handle| handle.pins_old(row)))
}

/// A place as the number of its handle.
pub(crate) fn number(place: Option<usize>) -> Option<u16>
    requires { IfSome place (λ n. n < 2 ^ 16) }
    ensures { result ≡ place }
{
    match place {
        Some(n) => Some(n as u16),
        None => None,
    }
}

/// A place as the number of its handle, if the places are counted from this one on.
pub(crate) fn number_from(start: usize, place: Option<usize>) -> Option<u16>
    requires { IfSome place (λ n. start + n < 2 ^ 16) }
    ensures { result ≡ option_map (λ n. start + n) place }
{
    match place {
        Some(n) => Some((start + n) as u16),
        None => None,
    }
}
