//! The medium and the configuration that the calls get.

use nvme_medium::MemMedium;
use nvme_spec::{Config, ControllerConfig, NsConfig};
use nvme_wire::NoMemory;
use std::alloc::Global;

/// Eight blocks, each byte of which is 7.
pub(crate) fn marked(alloc: Global) -> Result<MemMedium, NoMemory> {
    MemMedium::new(alloc, &[7; 4096])
}

/// Whether a medium is that of `marked`.
pub(crate) fn is_marked(medium: &MemMedium) -> bool {
    medium.as_bytes() == [7; 4096].as_slice()
}

/// A controller with a driver, and a namespace of eight blocks that is attached to it.
pub(crate) fn configuration(alloc: Global) -> Result<Config, NoMemory> {
    let controller = ControllerConfig {
        cntlid: 1,
        host: 0xa1,
        raw: false,
    };
    let namespace = NsConfig {
        nsid: 1,
        blocks: 8,
        shared: true,
    };
    let mut config = Config {
        controllers: Vec::with_capacity(alloc, 1)?,
        namespaces: Vec::with_capacity(alloc, 1)?,
        attached: Vec::with_capacity(alloc, 1)?,
    };
    config.controllers.push_reserved(controller);
    config.namespaces.push_reserved(namespace);
    config.attached.push_reserved((1, 1));
    Ok(config)
}
