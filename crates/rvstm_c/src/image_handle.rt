//! A handle, which owns an image.

pub(crate) mod zeros;

ghost use Rattle.std.specs.Prelude.{◌≡◌, IsSome, None, Option, Some, is_some};
ghost use Rattle.std.specs.Coded.{coded_option};
ghost use Rattle.std.specs.Option.{option_map};
ghost use Rattle.rvstm_c.specs.contracts.image.EmbeddedImage as image;
ghost use Rattle.rvstm_c.specs.declared.image.EmbeddedImage.{EmbeddedImage};

use crate::image::EmbeddedImage;
use crate::loose::Loose;
use std::alloc::Global;
use std::marker::Model;

/// A handle, which C keeps. All its bytes are zero before an image is opened.
#[repr(C)]
#[derive(Drop)]
pub struct ImageHandle {
    at: *mut u8,
    full: bool,
    pub ghost value: { Option EmbeddedImage } by { coded_option (image.the_row).coded },
    ghost flagged: { full ≡ is_some value },
}

impl Model for ImageHandle {
    ghost use Rattle.rvstm_c.specs.Held.{held, on_heap};
    ghost use Rattle.rvstm_c.specs.contracts.image.EmbeddedImage.{the_row};

    ghost also_owns = { λ h. held on_heap the_row h.at h.value };
}

// What it holds may go to another thread, and nothing else has its pointer.
unsafe impl Send for ImageHandle {}

/// Whether a handle has an image.
fn is_full(handle: &mut ImageHandle) -> bool
    ensures same { handle.new ≡ handle.old }
    ensures says { result ≡ is_some handle.old.value }
{
    handle.full
}

/// Takes the image out of a handle that has one.
fn take(handle: &mut ImageHandle, alloc: Global) -> Loose<EmbeddedImage, Global>
    requires { IsSome handle.old.value }
    ensures taken { handle.old.value ≡ Some result.value }
    ensures left { handle.new.value ≡ None }
{
    handle.full = false;
    Loose {
        at: handle.at as *mut EmbeddedImage,
        alloc,
    }
}

/// Puts an image into a handle, which forgets what it had.
fn put(handle: &mut ImageHandle, image: Loose<EmbeddedImage, Global>)
    ensures { handle.new.value ≡ Some image.value }
{
    let Loose { at, alloc: _ } = image;
    handle.at = at as *mut u8;
    handle.full = true;
}

/// Takes the image out of a handle, or returns None if it has none.
pub(crate) fn take_image(handle: &mut ImageHandle, alloc: Global) -> Option<Box<EmbeddedImage>>
    ensures taken { option_map (λ image. image.value) result ≡ handle.old.value }
    ensures left { handle.new.value ≡ None }
{
    if !is_full(handle) {
        return None;
    }
    Some(take(handle, alloc).into_box())
}

/// Puts an image into a handle, which forgets what it had.
pub(crate) fn put_image(handle: &mut ImageHandle, image: Box<EmbeddedImage>)
    ensures { handle.new.value ≡ Some image.value }
{
    put(handle, Loose::of(image));
}
