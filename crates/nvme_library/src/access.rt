//! The access state for C: attachments, registrants and holders.

ghost use Rattle.std.specs.Prelude.{◌≡◌, ◌/◌, ◌%◌, ◌^◌, Some};
ghost use Rattle.nvme_library.specs.Access.{
  attachment,
  holder_of,
  hold_of,
  hold_seen,
  registrant_of,
  registrant_at,
  registrant_seen,
  without_hold,
  without_registrant,
  registrant_in,
  reservation_in,
};

use crate::answer::Answer;
use crate::codes;
use crate::handle::Handle;
use nvme_ns::{Namespace, Spaces};
use nvme_spec::{Hold as Holding, HostId, Registrant as Registered};
use std::alloc::Global;

/// The reservation of a namespace.
#[repr(C)]
#[derive(Clone, Copy)]
pub struct Hold {
    /// The lower 64 bits of its holder's host identifier: 0 if there is no holder, and under types 5 and 6, under which
    /// each registrant holds it.
    pub host_low: u64,
    /// The higher 64 bits.
    pub host_high: u64,
    /// The number of registered hosts.
    pub registrants: usize,
    /// `OK`; else why there is no such namespace, and the other fields are 0.
    pub what: u32,
    /// The generation counter (PRgeneration).
    pub generation: u32,
    /// The write protection of the namespace: 0 none, 1 write protected, 2 write protected until a power cycle.
    pub protection: u32,
    /// The reservation type, 1 to 6, or 0 if nobody holds it.
    pub rtype: u8,
    /// Whether it persists through power loss (PTPL).
    pub ptpl: bool,
}

/// A host that is registered with a namespace.
#[repr(C)]
#[derive(Clone, Copy)]
pub struct Registrant {
    /// The lower 64 bits of its host identifier.
    pub host_low: u64,
    /// The higher 64 bits.
    pub host_high: u64,
    /// Its reservation key.
    pub key: u64,
    /// `OK`; else why there is no such registrant, and the other fields are 0.
    pub what: u32,
}

/// Whether a controller is attached to a namespace: `VALUE`, with 1 or 0; or `CLOSED`. The value is 0 if there is no
/// such controller or namespace.
#[unsafe(no_mangle)]
pub extern "C" fn nvmesim_is_attached(
    alloc: Global,
    sim: &mut Handle,
    cntlid: u16,
    nsid: u32,
) -> Answer
    ensures attached { result ≡ attachment cntlid nsid sim.old.slot.value }
    ensures kept { sim.new.slot.value ≡ sim.old.slot.value }
{
    let Some(subsystem) = sim.take(alloc) else {
        return Answer::closed();
    };
    let attached = subsystem.spaces().is_attached(cntlid, nsid);
    *sim = Handle::of(subsystem);
    Answer::value(u32::from(attached))
}

/// The reservation of a namespace: `OK`, `NO_NAMESPACE` or `CLOSED`.
#[unsafe(no_mangle)]
pub extern "C" fn nvmesim_reservation(alloc: Global, sim: &mut Handle, nsid: u32) -> Hold
    ensures hold { result ≡ hold_seen nsid sim.old.slot.value }
    ensures kept { sim.new.slot.value ≡ sim.old.slot.value }
{
    let Some(subsystem) = sim.take(alloc) else {
        return Hold::without(codes::CLOSED);
    };
    let hold = Hold::at(subsystem.spaces(), nsid);
    *sim = Handle::of(subsystem);
    hold
}

/// The `i`-th, from 0, of the hosts that are registered with a namespace, by rising identifier: `OK`, `NO_REGISTRANT`,
/// `NO_NAMESPACE` or `CLOSED`.
#[unsafe(no_mangle)]
pub extern "C" fn nvmesim_registrant(
    alloc: Global,
    sim: &mut Handle,
    nsid: u32,
    i: usize,
) -> Registrant
    ensures registrant { result ≡ registrant_seen nsid i sim.old.slot.value }
    ensures kept { sim.new.slot.value ≡ sim.old.slot.value }
{
    let Some(subsystem) = sim.take(alloc) else {
        return Registrant::without(codes::CLOSED);
    };
    let registrant = Registrant::at(subsystem.spaces(), nsid, i);
    *sim = Handle::of(subsystem);
    registrant
}

/// The higher and the lower 64 bits of a host identifier.
fn halves(host: HostId) -> (u64, u64)
    ensures high { result.0 ≡ host / 2 ^ 64 }
    ensures low { result.1 ≡ host % 2 ^ 64 }
{
    let high = host / 18_446_744_073_709_551_616;
    let low = host % 18_446_744_073_709_551_616;
    (high as u64, low as u64)
}

/// The type of a reservation and its one holder, 0 each if there is none.
fn held(hold: Holding) -> (u8, HostId)
    ensures { result ≡ holder_of hold }
{
    match hold {
        Holding::Free => (0, 0),
        Holding::One(rtype, holder) => (rtype, holder),
        Holding::All(rtype) => (rtype, 0),
    }
}

impl Hold {
    /// No reservation.
    fn without(what: u32) -> Self
        ensures { result ≡ without_hold what }
    {
        Hold {
            host_low: 0,
            host_high: 0,
            registrants: 0,
            what,
            generation: 0,
            protection: 0,
            rtype: 0,
            ptpl: false,
        }
    }

    /// The reservation of this namespace.
    fn of(namespace: &Namespace) -> Self
        ensures { result ≡ hold_of namespace.now }
    {
        let reservation = namespace.reservation();
        let (rtype, holder) = held(reservation.hold());
        let (host_high, host_low) = halves(holder);
        Hold {
            host_low,
            host_high,
            registrants: reservation.registrants().len(),
            what: codes::OK,
            generation: reservation.generation(),
            protection: namespace.protection_state(),
            rtype,
            ptpl: reservation.ptpl(),
        }
    }

    /// The reservation of the namespace with this identifier.
    fn at(spaces: &Spaces, nsid: u32) -> Self
        ensures { result ≡ reservation_in nsid spaces.now }
    {
        match spaces.namespace(nsid) {
            Some(namespace) => Hold::of(namespace),
            None => Hold::without(codes::NO_NAMESPACE),
        }
    }
}

impl Registrant {
    /// No registrant.
    fn without(what: u32) -> Self
        ensures { result ≡ without_registrant what }
    {
        Registrant {
            host_low: 0,
            host_high: 0,
            key: 0,
            what,
        }
    }

    /// The registrant of a reservation.
    fn of(registrant: &Registered) -> Self
        ensures { result ≡ registrant_of registrant.now }
    {
        let (host_high, host_low) = halves(registrant.host);
        Registrant {
            host_low,
            host_high,
            key: registrant.key,
            what: codes::OK,
        }
    }

    /// The `i`-th registrant of a namespace.
    fn in_namespace(namespace: &Namespace, i: usize) -> Self
        ensures { result ≡ registrant_at i (Some namespace.now) }
    {
        match namespace.reservation().registrants().get(i) {
            Some(registrant) => Registrant::of(registrant),
            None => Registrant::without(codes::NO_REGISTRANT),
        }
    }

    /// The `i`-th registrant of the namespace with this identifier.
    fn at(spaces: &Spaces, nsid: u32, i: usize) -> Self
        ensures { result ≡ registrant_in nsid i spaces.now }
    {
        match spaces.namespace(nsid) {
            Some(namespace) => Registrant::in_namespace(namespace, i),
            None => Registrant::without(codes::NO_NAMESPACE),
        }
    }
}
