//! Calls of windows, media and a controller.

use crate::Came;
use crate::opening::{is_marked, marked};
use nvme_ctrl::Controller;
use nvme_medium::{Cached, FileFault, FileMedium, Medium, MemMedium};
use nvme_mem::Window;
use nvme_wire::NoMemory;
use std::alloc::Global;
use std::fs::File;
use std::num::NonZeroUsize;
use std::rt::Files;

/// The image file, which has two blocks.
const IMAGE: &str = "image";

pub(crate) fn window(alloc: Global) -> Came {
    match Window::new(alloc) {
        Ok(window) => Came::done(window.piece(4_194_296, 8) == Some([0; 8].as_slice())),
        Err(NoMemory) => Came::Refused,
    }
}

pub(crate) fn memory(alloc: Global) -> Came {
    match marked(alloc) {
        Ok(medium) => Came::done(is_marked(&medium)),
        Err(NoMemory) => Came::Refused,
    }
}

pub(crate) fn file<R: Files<File = File>>(rt: &R) -> Came {
    match FileMedium::open(rt, IMAGE) {
        Ok(medium) => Came::done(medium.blocks() == 2),
        Err(fault) => Came::refused(fault == FileFault::NoMemory),
    }
}

/// A refused cache returns the medium.
pub(crate) fn cached(alloc: Global) -> Result<Came, NoMemory> {
    let inner = marked(alloc)?;
    let Some(capacity) = NonZeroUsize::new(2) else {
        return Ok(Came::Wrong);
    };
    Ok(match Cached::new(alloc, inner, capacity) {
        Ok(mut cached) => Came::done(reads_twice(&mut cached) && is_marked(&cached.into_inner())),
        Err((medium, NoMemory)) => Came::refused(is_marked(&medium)),
    })
}

/// Whether block `i` is in the medium and reads as its content, from the cache or from memory.
fn is_read(medium: &mut Cached<MemMedium>, i: u64) -> bool {
    let mut block = [0; 512];
    i < medium.blocks() && medium.read(i, &mut block).is_ok() && block == [7; 512]
}

/// Whether repeated reads of more blocks than fit in the cache return their content.
fn reads_twice(medium: &mut Cached<MemMedium>) -> bool {
    is_read(medium, 0)
        && is_read(medium, 0)
        && is_read(medium, 1)
        && is_read(medium, 2)
        && is_read(medium, 0)
}

pub(crate) fn controller(alloc: Global) -> Came {
    match Controller::new(alloc, 1) {
        Ok(controller) => Came::done(controller.window().piece(0, 8) == Some([0; 8].as_slice())),
        Err(NoMemory) => Came::Refused,
    }
}
