ghost use Rattle.std.specs.Prelude.{◌≡◌, ◌^◌, ◌<◌, ◌+◌, ◌↔◌, ℕ, false, None, Some, is_some, is_none, IsSome, IsNone, IfOk, IfSome, IfNone, OnSome, map, position, count_by, length, replicate, slice_set};
ghost use Rattle.std.specs.Option.{option_map};
ghost use Rattle.access_desc.specs.Counts.{AreKept};
ghost use Rattle.access_desc.specs.Steps.{at_place, changed_at, has, new_handle, pins, pins_old, with_pin, with_no_pin, with_told, after_new_image, after_end};

use crate::handle_view::HandleView;
use crate::pins::{put, rows_without_pins};
use crate::places::{first_free, first_old_pin, first_pin, number, number_from};
use crate::row_pins::RowPins;
use std::alloc::{AllocError, Global};
use std::marker::Model;
use tbl_kinds::Memory;

/// How many handles there can be (`CFE_PLATFORM_TBL_MAX_NUM_HANDLES`).
const PLACES: usize = 256;

/// The 256 places for handles: what is at place n is handle n.
#[derive(Drop)]
pub struct Handles {
    places: Vec<Option<HandleView>>,
    /// What is kept of the pins of the table in each row.
    rows: Vec<RowPins>,
}

impl Model for Handles {
    ghost use Rattle.std.specs.Prelude.{List, Option};
    ghost use Rattle.access_desc.specs.declared.handle_view.HandleView.{HandleView};
    ghost use Rattle.access_desc.specs.Counts.{AreKept};

    ghost Value = { List (Option HandleView) };

    ghost view = { λ h. h.places.items };

    ghost invariant = { λ h. AreKept h.places.items h.rows.items };
}

fn place_after_new_image(place: Option<HandleView>, row: u8) -> Option<HandleView>
    ensures { result ≡ option_map (after_new_image row) place }
{
    place.map(|handle| handle.after_new_image(row))
}

fn place_after_end(place: Option<HandleView>, row: u8) -> Option<HandleView>
    ensures { result ≡ option_map (after_end row) place }
{
    place.map(|handle| handle.after_end(row))
}

/// Moves the pins of every handle of a row, since its table has a new image.
fn move_pins(places: &mut [Option<HandleView>], row: u8)
    ensures { places.new ≡ map (option_map (after_new_image row)) places.old }
{
    for place in places.iter_mut() {
        *place = place_after_new_image(*place, row);
    }
}

/// Takes their table and their pin from the handles of a row.
fn end_table(places: &mut [Option<HandleView>], row: u8)
    ensures { places.new ≡ map (option_map (after_end row)) places.old }
{
    for place in places.iter_mut() {
        *place = place_after_end(*place, row);
    }
}

/// Moves the pins of the handles of a row, since its table has a new image, if any of them pins one.
fn move_row(places: &mut [Option<HandleView>], rows: &[RowPins], row: u8)
    requires { AreKept places.old rows.now }
    ensures places { places.new ≡ map (option_map (after_new_image row)) places.old }
    ensures kept { AreKept places.new rows.now }
{
    // A new image comes with each load, and seldom to a table that anybody pins.
    if rows[row as usize].count > 0 {
        move_pins(places, row);
    }
}

/// Takes their table and their pin from the handles of a row whose pins aren't counted any more.
fn end_row(places: &mut [Option<HandleView>], rows: &mut [RowPins], row: u8)
    requires { AreKept places.old rows.old }
    ensures places { places.new ≡ map (option_map (after_end row)) places.old }
    ensures kept { AreKept places.new rows.new }
{
    end_table(places, row);
    rows[row as usize] = RowPins::NONE;
}

/// Frees every place.
fn free_all(places: &mut [Option<HandleView>])
    requires { length places.old ≡ 256 }
    ensures { places.new ≡ replicate 256 None }
{
    for place in places.iter_mut() {
        *place = None;
    }
}

fn free_places(alloc: Global) -> Result<Vec<Option<HandleView>>, AllocError>
    ensures { IfOk result (λ v. v.items ≡ replicate 256 None) }
{
    let places = vec![in alloc; None; PLACES]?;
    Ok(places)
}

impl Handles {
    /// 256 free places.
    pub fn make(alloc: Global) -> Result<Handles, Memory>
        ensures { IfOk result (λ h. h ≡ replicate 256 None) }
    {
        Ok(Handles {
            places: free_places(alloc)?,
            rows: rows_without_pins(alloc)?,
        })
    }

    /// The same handles in memory of their own. An Err means out of memory.
    pub fn duplicate(&self, alloc: Global) -> Result<Handles, Memory>
        ensures { IfOk result (λ copy. copy ≡ self.now) }
    {
        Ok(Handles {
            places: Vec::from_slice(alloc, &self.places)?,
            rows: Vec::from_slice(alloc, &self.rows)?,
        })
    }

    /// Gives an application a handle on the table of a row: the least free number. It pins nothing and knows of no image.
    #[tactic(auto, using(tbl_kinds::proofs::FreeLaws::none_at))]
    pub fn add(&mut self, app: u8, row: u8) -> Option<u16>
        ensures least_free { result ≡ position is_none self.old }
        ensures none_where_full { IsNone result ↔ (count_by is_some self.old ≡ 256) }
        ensures added { IfSome result (λ n. self.new ≡ slice_set self.old n (Some (new_handle app row))) }
        ensures within { IfSome result (λ n. n < 256) }
        ensures full { IfNone result (self.new ≡ self.old) }
    {
        let free = first_free(&self.places)?;
        let handle = HandleView {
            app,
            row: Some(row),
            pinned: false,
            old: false,
            told: 0,
        };
        put(&mut self.places, &mut self.rows, free, Some(handle));
        Some(free as u16)
    }

    /// The number that the next handle gets: the least free one.
    pub fn next(&self) -> Option<u16>
        ensures least_free { result ≡ position is_none self.now }
    {
        number(first_free(&self.places))
    }

    /// Frees the numbers of all handles.
    pub fn clear(&mut self)
        ensures { self.new ≡ replicate 256 None }
    {
        free_all(&mut self.places);
        self.rows.fill(RowPins::NONE);
    }

    /// Frees the number of a handle.
    pub fn drop_handle(&mut self, handle: u16)
        requires { IsSome (at_place self.old handle) }
        ensures { self.new ≡ slice_set self.old handle None }
    {
        put(&mut self.places, &mut self.rows, handle as usize, None);
    }

    /// Each handle of a row loses its table and its pin.
    pub fn orphan(&mut self, row: u8)
        ensures { self.new ≡ map (option_map (after_end row)) self.old }
    {
        end_row(&mut self.places, &mut self.rows, row);
    }

    /// From now on the handle pins the last image of its table.
    pub fn pin(&mut self, handle: u16)
        requires { IsSome (at_place self.old handle) }
        ensures { self.new ≡ changed_at with_pin self.old handle }
    {
        let place = self.places[handle as usize].map(|entry| entry.with_pin());
        put(&mut self.places, &mut self.rows, handle as usize, place);
    }

    /// From now on the handle pins nothing.
    pub fn unpin(&mut self, handle: u16)
        requires { IsSome (at_place self.old handle) }
        ensures { self.new ≡ changed_at with_no_pin self.old handle }
    {
        let place = self.places[handle as usize].map(|entry| entry.with_no_pin());
        put(&mut self.places, &mut self.rows, handle as usize, place);
    }

    /// The handle knows of this many images.
    pub fn tell(&mut self, handle: u16, count: u32)
        requires { IsSome (at_place self.old handle) }
        ensures { self.new ≡ changed_at (with_told count) self.old handle }
    {
        let place = self.places[handle as usize].map(|entry| entry.with_told(count));
        put(&mut self.places, &mut self.rows, handle as usize, place);
    }

    /// A place before which no handle pins an image of this row's table, None if none does at all.
    fn pins_start(&self, row: u8) -> Option<usize>
        ensures none { IfNone result (count_by (has (pins row)) self.now ≡ 0) }
        ensures none_before { IfSome result (λ start. (n : ℕ) → n < start → has (pins row) (at_place self.now n) ≡ false) }
        ensures within { IfSome result (λ start. start < length self.now) }
        ensures all_places { length self.now ≡ 256 }
    {
        let kept = self.rows[row as usize];
        if kept.count == 0 {
            None
        } else {
            Some(kept.start as usize)
        }
    }

    /// The table of a row has a new image: each pin of one of its images is from now on of the image before.
    pub fn moved(&mut self, row: u8)
        ensures { self.new ≡ map (option_map (after_new_image row)) self.old }
    {
        move_row(&mut self.places, &self.rows, row);
    }

    /// The least handle that pins an image of this row's table.
    pub fn pinned_any(&self, row: u8) -> Option<u16>
        ensures least { result ≡ position (has (pins row)) self.now }
        ensures within { IfSome result (λ n. n < 256) }
    {
        let start = self.pins_start(row)?;
        number_from(start, first_pin(&self.places[start..], row))
    }

    /// The least handle that pins an image of this row's table which isn't the last.
    pub fn pinned_old(&self, row: u8) -> Option<u16>
        ensures least { result ≡ position (has (pins_old row)) self.now }
        ensures within { IfSome result (λ n. n < 256) }
    {
        let start = self.pins_start(row)?;
        number_from(start, first_old_pin(&self.places[start..], row))
    }

    /// How many handles there can be.
    pub fn limit(&self) -> u16
        ensures { result ≡ length self.now }
    {
        self.places.len() as u16
    }

    /// What a handle represents, None if no such handle is given.
    pub fn view(&self, handle: u16) -> Option<HandleView>
        ensures handle { result ≡ at_place self.now handle }
        ensures within { OnSome result (handle < 256) }
    {
        self.places.get(handle as usize).copied().flatten()
    }
}
