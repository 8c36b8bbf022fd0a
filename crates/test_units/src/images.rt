ghost use Rattle.std.specs.Prelude.{◌≡◌, ◌<◌, length};

use buffer_pairs::{Buffers, Image};
use std::alloc::Global;
use std::test::Fail;
use std::thread::{self, Threads};
use tbl_kinds::Memory;

/// Writes over the first byte while the image has another owner, who reads it in a thread, and once it has none. Answers
/// how many bytes were read, and whether the first write left the image and the second was done.
fn write_shared<R: Threads>(rt: &R, image: &mut Image) -> Result<(usize, bool), Memory>
    requires { 0 < length image.old }
{
    let shared = image.share()?;
    let left = !image.write(0, &[7]) && image.bytes() == [1, 2, 3, 4].as_slice();
    let (read, _) = thread::join(rt, move || shared.bytes().len(), || ());
    Ok((read, left && image.write(0, &[7])))
}

#[test]
fn images(rt: HostRuntime) -> Result<(), Fail> {
    let mut image = Image::of(rt.alloc(), &[1, 2, 3, 4])?;
    let (read, written) = write_shared(&rt, &mut image)?;
    assert!(rt; read == 4 && written && image.bytes() == [7, 2, 3, 4].as_slice());
    Ok(())
}

#[test]
fn new_images(rt: HostRuntime) -> Result<(), Fail> {
    let first = Image::of(rt.alloc(), &[1, 2, 3, 4])?;
    let second = Image::patched(rt.alloc(), first.bytes(), 1, &[8, 9])?;
    assert!(rt; second.bytes() == [1, 8, 9, 4].as_slice());
    let zeros = Image::zeros(rt.alloc(), 3)?;
    assert!(rt; zeros.bytes() == [0; 3].as_slice());
    Ok(())
}

/// Puts an image of one byte.
fn put(alloc: Global, buffers: &mut Buffers, byte: u8) -> Result<(), Memory> {
    buffers.put(Image::of(alloc, &[byte])?);
    Ok(())
}

/// The bytes of an image, or none.
fn bytes_of(image: Option<&Image>) -> &[u8] {
    match image {
        Some(image) => image.bytes(),
        None => &[],
    }
}

#[test]
fn buffers(rt: HostRuntime) -> Result<(), Fail> {
    let mut buffers = Buffers::make(None, true);
    assert!(rt; buffers.active().is_none());
    put(rt.alloc(), &mut buffers, 1)?;
    put(rt.alloc(), &mut buffers, 2)?;
    assert!(rt; bytes_of(buffers.before()) == [1].as_slice());
    buffers.drop_before();
    assert!(rt; buffers.before().is_none());
    Ok(())
}

#[test]
fn an_image_is_kept(rt: HostRuntime) -> Result<(), Fail> {
    let mut buffers = Buffers::make(Some(Image::of(rt.alloc(), &[1])?), true);
    buffers.keep();
    put(rt.alloc(), &mut buffers, 2)?;
    buffers.drop_before();
    assert!(rt; bytes_of(buffers.kept()) == [1].as_slice());
    buffers.end_keep();
    assert!(rt; buffers.kept().is_none());
    Ok(())
}
