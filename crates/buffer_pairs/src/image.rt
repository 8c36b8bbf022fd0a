ghost use Rattle.std.specs.Prelude.{◌≡◌, ◌+◌, ◌≤◌, length, replicate, true, IfOk, if◌then◌else◌};
ghost use Rattle.std.specs.Arc.{arc_value};
ghost use Rattle.tbl_kinds.specs.Check.{check16};
ghost use Rattle.tbl_kinds.specs.Numbers.{patched};

use check_word::{Checked, check16};
use std::alloc::{AllocError, Global};
use std::marker::Model;
use std::sync::Arc;
use tbl_kinds::{Bytes, Memory};

/// Up to how many bytes an image's memory is used again. To copy so many costs less than a further allocation, and what each
/// table puts aside stays small.
pub const SPARE_LIMIT: usize = 1_024;

/// An image of a table: bytes with one owner or several, in any threads. Once it has a second owner, nobody can change it.
#[derive(Drop)]
pub struct Image {
    bytes: Arc<Vec<u8>, Global>,
    /// Its check word, once that was worked out.
    word: Option<u16>,
}

impl Model for Image {
    ghost use Rattle.std.specs.Prelude.{◌≡◌, ℕ, List, IfSome};
    ghost use Rattle.std.specs.Arc.{arc_value};
    ghost use Rattle.tbl_kinds.specs.Check.{check16};

    ghost Value = { List ℕ };

    ghost view = { λ image. (arc_value image.bytes).items };

    ghost invariant = { λ image. IfSome image.word (λ word. word ≡ check16 (arc_value image.bytes).items) };
}

/// Writes bytes over some of the image.
fn write_over(image: &mut [u8], offset: usize, bytes: &[u8])
    requires { offset + length bytes.now ≤ length image.old }
    ensures { image.new ≡ patched image.old offset bytes.now }
{
    image[offset..offset + bytes.len()].copy_from_slice(bytes);
}

/// Writes bytes over all of the image, if it has as many. Whether it did.
fn fill(image: &mut [u8], bytes: &[u8]) -> bool
    ensures { result ≡ true → image.new ≡ bytes.now }
{
    if image.len() != bytes.len() {
        return false;
    }
    image.copy_from_slice(bytes);
    true
}

/// The base, with other bytes over some of it, each byte moved once.
fn joined(alloc: Global, base: &[u8], offset: usize, bytes: &[u8]) -> Result<Vec<u8>, AllocError>
    requires { offset + length bytes.now ≤ length base.now }
    ensures { IfOk result (λ image. image.items ≡ patched base.now offset bytes.now) }
{
    let mut image = Vec::with_capacity(alloc, base.len())?;
    image.extend_from_slice(&base[..offset])?;
    image.extend_from_slice(bytes)?;
    image.extend_from_slice(&base[offset + bytes.len()..])?;
    Ok(image)
}

impl Image {
    /// An image of these bytes.
    pub fn of(alloc: Global, bytes: &[u8]) -> Result<Image, Memory>
        ensures { IfOk result (λ image. image ≡ bytes.now) }
    {
        let bytes = Vec::from_slice(alloc, bytes)?;
        Ok(Image::from_shared(Arc::new(alloc, bytes)?))
    }

    /// An image of these bytes. It takes the memory of the spare one if that is as long and has no other owner.
    pub fn over(alloc: Global, spare: Option<Image>, bytes: &[u8]) -> Result<Image, Memory>
        ensures { IfOk result (λ image. image ≡ bytes.now) }
    {
        if let Some(mut image) = spare {
            if image.take_bytes(bytes) {
                return Ok(image);
            }
        }
        Image::of(alloc, bytes)
    }

    /// Writes as many bytes as it has over all of them, if it has no other owner. Whether it did.
    fn take_bytes(&mut self, bytes: &[u8]) -> bool
        ensures { result ≡ true → self.new ≡ bytes.now }
    {
        self.word = None;
        match Arc::get_mut(&mut self.bytes) {
            Some(image) => fill(image, bytes),
            None => false,
        }
    }

    /// An image of these bytes. If they have memory of their own it takes that too, and no byte is copied.
    pub fn of_bytes(alloc: Global, bytes: &mut Bytes) -> Result<Image, Memory>
        ensures image { IfOk result (λ image. image ≡ bytes.old.list) }
        ensures same { bytes.new ≡ bytes.old }
    {
        match bytes.share()? {
            Some(shared) => Ok(Image::from_shared(shared)),
            None => Image::of(alloc, bytes.bytes()),
        }
    }

    /// An image of as many zeros.
    pub fn zeros(alloc: Global, size: u32) -> Result<Image, Memory>
        ensures { IfOk result (λ image. image ≡ replicate size 0) }
    {
        let bytes = vec![in alloc; 0; size as usize]?;
        Ok(Image::from_shared(Arc::new(alloc, bytes)?))
    }

    /// An image of bytes that are in their place already, for example because they were read into it.
    pub fn from_shared(bytes: Arc<Vec<u8>, Global>) -> Image
        ensures { result ≡ (arc_value bytes).items }
    {
        Image { bytes, word: None }
    }

    /// A new image of the base's bytes, with other bytes over them from an offset on.
    pub fn patched(alloc: Global, base: &[u8], offset: u32, bytes: &[u8]) -> Result<Image, Memory>
        requires { offset + length bytes.now ≤ length base.now }
        ensures image { IfOk result (λ image. image ≡ patched base.now offset bytes.now) }
        ensures size { IfOk result (λ image. length image ≡ length base.now) }
    {
        let bytes = joined(alloc, base, offset as usize, bytes)?;
        Ok(Image::from_shared(Arc::new(alloc, bytes)?))
    }

    /// Its bytes.
    pub fn bytes(&self) -> &[u8]
        ensures { result.now ≡ self.now }
    {
        self.bytes.as_slice()
    }

    /// A further owner of the same bytes. It copies none and takes no memory, and fails only if there are as many owners as can be counted.
    pub fn share(&self) -> Result<Image, Memory>
        ensures { IfOk result (λ image. image ≡ self.now) }
    {
        Ok(Image {
            bytes: Arc::try_clone(&self.bytes)?,
            word: self.word,
        })
    }

    /// Its check word. It is kept, so that it is worked out once as long as nobody changes the image.
    pub fn keep_check_word(&mut self) -> u16
        ensures word { result ≡ check16 self.old }
        ensures same { self.new ≡ self.old }
    {
        let word = self.check_word();
        self.word = Some(word);
        word
    }

    /// Its check word: the one that is kept, else it is worked out now.
    pub fn check_word(&self) -> u16
        ensures { result ≡ check16 self.now }
    {
        match self.word {
            Some(word) => word,
            None => check16(self.bytes()),
        }
    }

    /// Its bytes, with their check word.
    pub fn checked(&self) -> Checked<'_>
        ensures { result ≡ self.now }
    {
        Checked::known(self.bytes(), self.check_word())
    }

    /// The memory of its bytes, for a further owner.
    pub fn shared(&self) -> Result<Arc<Vec<u8>, Global>, Memory>
        ensures { IfOk result (λ shared. (arc_value shared).items ≡ self.now) }
    {
        Ok(Arc::try_clone(&self.bytes)?)
    }

    /// Writes bytes over the image in place, from an offset on. If it has another owner, it is left as it is and the answer is false.
    pub fn write(&mut self, offset: u32, bytes: &[u8]) -> bool
        requires { offset + length bytes.now ≤ length self.old }
        ensures { self.new ≡ (if result then patched self.old offset bytes.now else self.old) }
    {
        match Arc::get_mut(&mut self.bytes) {
            Some(image) => {
                self.word = None;
                write_over(image, offset as usize, bytes);
                true
            }
            None => false,
        }
    }
}
