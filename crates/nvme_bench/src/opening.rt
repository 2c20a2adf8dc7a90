//! What is opened before the measurements: a configuration, a medium, and a window with a PRP list.

use nvme_medium::MemMedium;
use nvme_mem::Window;
use nvme_spec::{Config, ControllerConfig, HostId, NsConfig};
use std::alloc::Global;
use std::io;

/// The address of the PRP list, and that of the first page in it.
pub(crate) const LIST: u64 = 0x1000;

pub(crate) const PAGES: u64 = 0x10000;

/// Memory was refused.
pub(crate) fn want_of_memory() -> io::Error {
    io::Error::from(io::ErrorKind::OutOfMemory)
}

/// Controllers of one host each, and a namespace of 256 blocks that is attached to all of them.
pub(crate) fn configuration(alloc: Global, controllers: u16) -> io::Result<Config> {
    let mut config = Config {
        controllers: Vec::new(alloc),
        namespaces: Vec::new(alloc),
        attached: Vec::new(alloc),
    };
    config.namespaces.push(NsConfig {
        nsid: 1,
        blocks: 256,
        shared: true,
    })?;
    for cntlid in 1..controllers.min(16) + 1 {
        config.controllers.push(ControllerConfig {
            cntlid,
            host: 0x100 + HostId::from(cntlid),
            raw: false,
        })?;
        config.attached.push((cntlid, 1))?;
    }
    Ok(config)
}

/// 256 blocks, each byte of which is 1.
pub(crate) fn medium(alloc: Global) -> io::Result<MemMedium> {
    let blocks = vec![in alloc; 1; 131_072]?;
    MemMedium::new(alloc, blocks.as_slice()).map_err(|_| want_of_memory())
}

/// A window with a PRP list of 31 pages.
pub(crate) fn listed_window(alloc: Global) -> io::Result<Window> {
    let mut window = Window::new(alloc).map_err(|_| want_of_memory())?;
    for i in 0..31 {
        let page = PAGES + 4096 * (i + 1);
        let _ = window.store(LIST + 8 * i, &page.to_le_bytes());
    }
    Ok(window)
}
