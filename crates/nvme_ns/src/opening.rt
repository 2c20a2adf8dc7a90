//! The tables of a configuration at its opening.

ghost use Rattle.std.specs.Prelude.{◌≡◌, ◌<◌, ◌≤◌, ◌^◌, length, map, false};
ghost use Rattle.nvme_spec.specs.Configuration.{total_blocks, has_foreign_nsid};
ghost use Rattle.nvme_spec.specs.World.{laid_out, controller_host};

use crate::Namespace;
use crate::refusal::{MAX_ATTACHMENTS, MAX_CONTROLLERS, MAX_NAMESPACES};
use arrayvec::ArrayVec;
use nvme_spec::{ControllerConfig, HostId, NsConfig};

/// The table of controllers: the identifier of each with its host.
pub fn controller_table(
    controllers: &[ControllerConfig],
) -> ArrayVec<(u16, HostId), MAX_CONTROLLERS>
    requires { length controllers.now ≤ 16 }
    ensures { result.items ≡ map controller_host controllers.now }
{
    let mut table = ArrayVec::new();
    for controller in controllers {
        table.push((controller.cntlid, controller.host));
    }
    table
}

/// The table of namespaces, which are adjacent on the medium.
pub fn namespace_table(namespaces: &[NsConfig]) -> ArrayVec<Namespace, MAX_NAMESPACES>
    requires few { length namespaces.now ≤ 8 }
    requires small { total_blocks namespaces.now < 2 ^ 64 }
    requires known { has_foreign_nsid namespaces.now ≡ false }
    ensures { result.items ≡ laid_out 0 namespaces.now }
{
    let mut table = ArrayVec::new();
    let mut first = 0;
    for namespace in namespaces {
        table.push(Namespace::new(namespace, first));
        first += namespace.blocks;
    }
    table
}

/// The table of attachments.
pub fn attachment_table(attached: &[(u16, u32)]) -> ArrayVec<(u16, u32), MAX_ATTACHMENTS>
    requires { length attached.now ≤ 128 }
    ensures { result.items ≡ attached.now }
{
    let mut table = ArrayVec::new();
    for pair in attached {
        table.push(*pair);
    }
    table
}
