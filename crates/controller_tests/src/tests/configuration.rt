//! Configurations of the tests' subsystems, and an access state that several tests begin with.

use nvme_ns::Spaces;
use nvme_spec::{Config, ControllerConfig, HostId, NsConfig};
use std::alloc::{AllocError, Global};
use std::test::Fail;

fn controller(cntlid: u16, host: HostId) -> ControllerConfig {
    ControllerConfig {
        cntlid,
        host,
        raw: false,
    }
}

fn namespace(nsid: u32, blocks: u64, shared: bool) -> NsConfig {
    NsConfig {
        nsid,
        blocks,
        shared,
    }
}

/// Controllers 1 to 4, of which 1 and 3 have the same host; namespace 1 of 64 blocks, shared and attached to all of
/// them; and namespace 2 of `private_blocks` blocks, private and attached to controller 1.
pub(crate) fn configuration(alloc: Global, private_blocks: u64) -> Result<Config, AllocError> {
    Ok(Config {
        controllers: vec![in alloc;
            controller(1, 0xa1),
            controller(2, 0xb2),
            controller(3, 0xa1),
            controller(4, 0xc3),
        ]?,
        namespaces: vec![in alloc; namespace(1, 64, true), namespace(2, private_blocks, false)]?,
        attached: vec![in alloc; (1, 1), (2, 1), (3, 1), (4, 1), (1, 2)]?,
    })
}

/// Controllers 1 and 2 of two hosts, and namespaces 1 and 2 of `blocks` blocks, shared and attached to both.
pub(crate) fn shared_configuration(alloc: Global, blocks: [u64; 2]) -> Result<Config, AllocError> {
    Ok(Config {
        controllers: vec![in alloc; controller(1, 0xa1), controller(2, 0xb2)]?,
        namespaces: vec![in alloc;
            namespace(1, blocks[0], true),
            namespace(2, blocks[1], true),
        ]?,
        attached: vec![in alloc; (1, 1), (2, 1), (1, 2), (2, 2)]?,
    })
}

/// The access state of the first configuration with 8 private blocks, over the 72 blocks of its namespaces.
pub(crate) fn opened(alloc: Global) -> Result<Spaces, Fail> {
    let config = configuration(alloc, 8)?;
    Ok(Spaces::new(&config, 72)?)
}
