//! Opens and closes the associations of a subsystem.

ghost use Rattle.std.specs.Prelude.{◌≡◌, ◌≤◌, ◌<◌, length, None};
ghost use Rattle.nvme_tcp_library.specs.Fabrics.{IsTooMany, Opens, host_at, hosts_of};

use crate::codes;
use crate::handle::FabricsHandle;
use crate::sessions::host_id;
use nvme_fabrics::Fabrics;
use std::alloc::Global;

/// The identifier of a host.
#[repr(C)]
#[derive(Clone, Copy)]
pub struct HostId {
    /// Its lower and its higher 64 bits.
    pub low: u64,
    pub high: u64,
}

/// A subsystem without associations, whose controllers have these hosts, by rising CNTLID from 1. With `has_keys` hosts
/// have to authenticate themselves. `OK`; or `ALREADY_OPEN`, `TOO_MANY` (more than 16), `NO_MEMORY`, and nothing has
/// changed.
#[unsafe(no_mangle)]
pub extern "C" fn nvmesim_fabrics_open(
    alloc: Global,
    fabrics: &mut FabricsHandle,
    hosts: &[HostId],
    has_keys: bool,
) -> u32
    ensures many { 16 < length hosts.now → IsTooMany fabrics.old.slot.value result fabrics.new.slot.value }
    ensures opens { length hosts.now ≤ 16
        → Opens hosts.now has_keys fabrics.old.slot.value result fabrics.new.slot.value }
{
    if fabrics.is_open() {
        return codes::ALREADY_OPEN;
    }
    if hosts.len() > 16 {
        return codes::TOO_MANY;
    }
    match Box::new(alloc, Fabrics::new(&hosts_of(hosts), has_keys)) {
        Ok(opened) => {
            *fabrics = FabricsHandle::of(opened);
            codes::OK
        }
        Err(_) => codes::NO_MEMORY,
    }
}

/// Forgets all associations, and frees their memory.
#[unsafe(no_mangle)]
pub extern "C" fn nvmesim_fabrics_close(alloc: Global, fabrics: &mut FabricsHandle)
    ensures { fabrics.new.slot.value ≡ None }
{
    let _ = fabrics.take(alloc);
}

/// The hosts of 16 controllers.
fn hosts_of(hosts: &[HostId]) -> [Option<u128>; 16]
    ensures { result ≡ hosts_of hosts.now }
{
    [
        host_at(hosts, 0),
        host_at(hosts, 1),
        host_at(hosts, 2),
        host_at(hosts, 3),
        host_at(hosts, 4),
        host_at(hosts, 5),
        host_at(hosts, 6),
        host_at(hosts, 7),
        host_at(hosts, 8),
        host_at(hosts, 9),
        host_at(hosts, 10),
        host_at(hosts, 11),
        host_at(hosts, 12),
        host_at(hosts, 13),
        host_at(hosts, 14),
        host_at(hosts, 15),
    ]
}

/// The host of the controller at a place, if there is such a controller.
fn host_at(hosts: &[HostId], index: usize) -> Option<u128>
    ensures { result ≡ host_at hosts.now index }
{
    match hosts.get(index) {
        Some(host) => Some(host_id(host.low, host.high)),
        None => None,
    }
}
