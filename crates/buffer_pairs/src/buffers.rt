ghost use Rattle.std.specs.Prelude.{◌≡◌, List, ℕ, Option, None};
ghost use Rattle.std.specs.Option.{option_copied, option_map};
ghost use Rattle.tbl_kinds.specs.Check.{check16};
ghost use Rattle.buffer_pairs.specs.Images.{at_first, with_last, without_before, keeping_last, keeping_none, kept_of};

use crate::image::{Image, SPARE_LIMIT};
use std::marker::Model;
use tbl_kinds::Memory;

mod copying;

/// A table's images: the last one, and in a table with two buffers the one before it (`CFE_TBL_OPT_SNGL_BUFFER`,
/// `CFE_TBL_OPT_DBL_BUFFER`).
#[derive(Drop)]
pub struct Buffers {
    last: Option<Image>,
    before: Option<Image>,
    double: bool,
    kept: Kept,
    /// A short image that left its place. The next one may take its memory.
    spare: Option<Image>,
}

/// The place of the image that is kept whatever comes.
#[derive(Drop)]
enum Kept {
    Nothing,
    /// It is the last one.
    Last,
    /// It is the one before the last.
    Before,
    /// It is in neither place any more.
    Own(Image),
}

impl Model for Buffers {
    ghost use Rattle.buffer_pairs.specs.Images.{Images};

    ghost Value = { Images };

    ghost use Rattle.buffer_pairs.specs.Images.{kept_of};

    ghost view = { λ b. record { double = b.double; last = b.last; before = b.before; kept = kept_of b.kept b.last b.before } };
}

/// An image that is in no other place.
fn own(image: Option<Image>) -> Kept
    ensures { (last before : Option (List ℕ)) → kept_of result last before ≡ image }
{
    match image {
        Some(image) => Kept::Own(image),
        None => Kept::Nothing,
    }
}

/// Puts an image that left its place aside, if it is short.
fn set_aside(spare: &mut Option<Image>, image: Option<Image>) {
    if let Some(image) = image {
        if image.bytes().len() <= SPARE_LIMIT {
            *spare = Some(image);
        }
    }
}

/// Its place once the image before the last has left its own.
fn without_before(kept: Kept, before: Option<Image>, spare: &mut Option<Image>) -> Kept
    ensures { (last after : Option (List ℕ)) → kept_of result last after ≡ kept_of kept last before }
{
    match kept {
        Kept::Before => own(before),
        kept => {
            set_aside(spare, before);
            kept
        }
    }
}

/// Empties the place before the last, and gives the place of the kept image then.
fn take_kept(kept: &mut Kept, before: &mut Option<Image>, spare: &mut Option<Image>) -> Kept
    ensures kept { (last after : Option (List ℕ)) → kept_of result last after ≡ kept_of kept.old last before.old }
    ensures before { before.new ≡ None }
{
    without_before(std::mem::replace(kept, Kept::Nothing), before.take(), spare)
}

/// Its place once the last image has moved to the place before it, which was empty.
fn moved_on(kept: Kept) -> Kept
    ensures { (last new : Option (List ℕ)) → kept_of result new last ≡ kept_of kept last None }
{
    match kept {
        Kept::Last => Kept::Before,
        Kept::Before => Kept::Nothing,
        kept => kept,
    }
}

/// Its place once the last image has left its own, with no place before it.
fn without_last(kept: Kept, last: Option<Image>, spare: &mut Option<Image>) -> Kept
    ensures { (new : Option (List ℕ)) → kept_of result new None ≡ kept_of kept last None }
{
    match kept {
        Kept::Last => own(last),
        kept => {
            set_aside(spare, last);
            kept
        }
    }
}

impl Buffers {
    /// The buffers of a table that has a first image, or none yet.
    pub fn make(first: Option<Image>, double: bool) -> Buffers
        ensures { result ≡ at_first first double }
    {
        Buffers {
            last: first,
            before: None,
            double,
            kept: Kept::Nothing,
            spare: None,
        }
    }

    /// An image that the table doesn't have any more, for the memory of its bytes. It is given once.
    pub fn take_spare(&mut self) -> Option<Image>
        ensures { self.new ≡ self.old }
    {
        self.spare.take()
    }

    /// The last image, None if the table was never loaded.
    pub fn active(&self) -> Option<&Image>
        ensures { option_copied result ≡ self.now.last }
    {
        self.last.as_ref()
    }

    /// The image before the last, None for a single buffer, if there were fewer than two images, or once it was dropped.
    pub fn before(&self) -> Option<&Image>
        ensures { option_copied result ≡ self.now.before }
    {
        self.before.as_ref()
    }

    /// The check word of the last image, which is kept with it.
    pub fn keep_check_word(&mut self) -> Option<u16>
        ensures word { result ≡ option_map check16 self.old.last }
        ensures same { self.new ≡ self.old }
    {
        match &mut self.last {
            Some(image) => Some(image.keep_check_word()),
            None => None,
        }
    }

    /// An image becomes the last one.
    pub fn put(&mut self, image: Image)
        ensures { self.new ≡ with_last image self.old }
    {
        let kept = take_kept(&mut self.kept, &mut self.before, &mut self.spare);
        let last = self.last.replace(image);
        if self.double {
            self.kept = moved_on(kept);
            self.before = last;
        } else {
            self.kept = without_last(kept, last, &mut self.spare);
        }
    }

    /// Drops the image before the last.
    pub fn drop_before(&mut self)
        ensures { self.new ≡ without_before self.old }
    {
        self.kept = take_kept(&mut self.kept, &mut self.before, &mut self.spare);
    }

    /// The last image is kept from now on, whatever comes. It takes no memory.
    pub fn keep(&mut self)
        ensures { self.new ≡ keeping_last self.old }
    {
        self.kept = Kept::Last;
    }

    /// No image is kept any more.
    pub fn end_keep(&mut self)
        ensures { self.new ≡ keeping_none self.old }
    {
        self.kept = Kept::Nothing;
    }

    /// The image that is kept, None if there is none.
    pub fn kept(&self) -> Option<&Image>
        ensures { option_copied result ≡ self.now.kept }
    {
        match &self.kept {
            Kept::Nothing => None,
            Kept::Last => self.active(),
            Kept::Before => self.before(),
            Kept::Own(image) => Some(image),
        }
    }
}
