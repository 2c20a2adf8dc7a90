//! The registrants of a namespace: at most sixteen, by rising host identifier.

ghost use Rattle.std.specs.Prelude.{◌≡◌, ◌==◌, ◌<◌, ◌⊎◌, IsTrue, IfErr, IfOk, filter, length, map, not};
ghost use Rattle.nvme_spec.specs.Reservation as resv;
ghost use Rattle.nvme_spec.specs.Report as report;
ghost use Rattle.nvme_resv.specs.Places.{IsGapFor, IsPlaceOf};
ghost use Rattle.nvme_resv.specs.Leaving.{leaves_test};

use arrayvec::ArrayVec;
use nvme_spec::{HostId, Registrant};

/// Registrants by rising host.
pub(crate) type Registrants = ArrayVec<Registrant, 16>;

pub(crate) fn is_registered(registrants: &[Registrant], host: HostId) -> bool
    ensures { result ≡ resv.is_registered registrants.now host }
{
    registrants.iter().any(|r| r.host == host)
}

/// The host's key, if it is registered.
pub(crate) fn key_of(registrants: &[Registrant], host: HostId) -> Option<u64>
    ensures { result ≡ report.key_of registrants.now host }
{
    registrants.iter().find(|r| r.host == host).map(|r| r.key)
}

/// The index of the host, or the index at which to insert it.
fn search(registrants: &[Registrant], host: HostId) -> Result<usize, usize>
    requires { resv.IsRising registrants.now }
    ensures found { IfOk result (IsPlaceOf registrants.now host) }
    ensures absent { IfErr result (IsGapFor registrants.now host) }
{
    registrants.binary_search_by_key(&host, |r| r.host)
}

/// Gives a host a key. The registrants stay in rising order.
pub(crate) fn set_key(registrants: &mut Registrants, host: HostId, key: u64)
    requires rising { resv.IsRising registrants.old.items }
    requires room { IsTrue (resv.is_registered registrants.old.items host) ⊎ (length registrants.old.items < 16) }
    ensures { registrants.new.items ≡ resv.with_key registrants.old.items host key }
{
    match search(registrants, host) {
        Ok(i) => registrants[i].key = key,
        Err(i) => registrants.insert(i, Registrant { host, key }),
    }
}

/// Removes the host.
pub(crate) fn remove_host(registrants: &mut Registrants, host: HostId)
    ensures { registrants.new.items ≡ filter (λ r. not (r.host == host)) registrants.old.items }
{
    registrants.retain(|r| r.host != host);
}

/// Removes all registrants, only those with `key` if there is one, except the spared host. Returns their hosts.
pub(crate) fn expel(
    registrants: &mut Registrants,
    key: Option<u64>,
    spared: Option<HostId>,
) -> ArrayVec<HostId, 16>
    ensures stay { registrants.new.items ≡ filter (λ r. not (leaves_test key spared r)) registrants.old.items }
    ensures removed { result.items ≡ map (λ r. r.host) (filter (leaves_test key spared) registrants.old.items) }
{
    let mut removed = ArrayVec::new();
    for r in registrants.as_slice() {
        if leaves(r, key, spared) {
            removed.push(r.host);
        }
    }
    registrants.retain(|r| !leaves(r, key, spared));
    removed
}

/// Whether a registrant has this key, if one is given, and is not the spared host.
fn leaves(r: &Registrant, key: Option<u64>, spared: Option<HostId>) -> bool
    ensures { result ≡ leaves_test key spared r.now }
{
    key.is_none_or(|k| r.key == k) && spared != Some(r.host)
}
