//! The calls on an image.

ghost use Rattle.std.specs.Prelude.{◌≡◌, None};
ghost use Rattle.std.specs.Arc.{arc_value};
ghost use Rattle.rvstm_c.specs.Images.{IsImageClosed, IsImageMade, IsImageOpened};

use crate::image::{EmbeddedImage, refusal_of};
use crate::image_handle::{ImageHandle, put_image, take_image};
use crate::refusal::{NO_PARTS, RefusalParts, handed_out};
use crate::status::{ALREADY_OPEN, CLOSED, DONE, NO_MEMORY, REFUSED};
use elf32::Image;
use programs::load_file;
use std::alloc::{AllocFailed, Global};
use std::sync::Arc;

/// Loads a program. DONE; REFUSED if the file is no program or has more than 131,072 bytes, and then the parts say why;
/// ALREADY_OPEN if the handle has an image, which stays; NO_MEMORY.
#[unsafe(no_mangle)]
pub extern "C" fn rvstm_image_open(
    alloc: Global,
    handle: &mut ImageHandle,
    file: &[u8],
    parts: &mut RefusalParts,
) -> u32
    ensures { IsImageOpened file.now handle.old.value result handle.new.value parts.new }
{
    *parts = NO_PARTS;
    if let Some(image) = take_image(handle, alloc) {
        put_image(handle, image);
        return ALREADY_OPEN;
    }
    match load_file(alloc, file) {
        Ok(program) => open_new(alloc, handle, program),
        Err(fault) => match refusal_of(fault) {
            Some(refusal) => {
                *parts = handed_out(refusal.parts());
                REFUSED
            }
            None => NO_MEMORY,
        },
    }
}

/// Opens an image of a program, if the handle has none. DONE, or NO_MEMORY.
fn open_new(alloc: Global, handle: &mut ImageHandle, program: Arc<Image>) -> u32
    requires { handle.old.value ≡ None }
    ensures { IsImageMade (arc_value program) result handle.new.value }
{
    match Box::new(alloc, EmbeddedImage { program }) {
        Ok(image) => {
            put_image(handle, image);
            DONE
        }
        Err(AllocFailed { .. }) => NO_MEMORY,
    }
}

/// Closes an image. DONE or CLOSED.
#[unsafe(no_mangle)]
pub extern "C" fn rvstm_image_close(alloc: Global, handle: &mut ImageHandle) -> u32
    ensures left { handle.new.value ≡ None }
    ensures status { IsImageClosed handle.old.value result }
{
    match take_image(handle, alloc) {
        Some(image) => {
            drop(image);
            DONE
        }
        None => CLOSED,
    }
}
