//! Reservation requests are placed.

ghost use Rattle.std.specs.Prelude.{◌≡◌, ◌*◌};
ghost use Rattle.nvme_spec.specs.declared.command.Command.TheVariants as command;
ghost use Rattle.nvme_driver.specs.declared.request.Request.TheVariants.{Register, Acquire, Release, Report};
ghost use Rattle.nvme_host.specs.Exports.{Places, reporting, zeroing};
ghost use Rattle.nvme_host.specs.Refusals.{request_refusal};

use crate::handle::Handle;
use crate::outcome::Placed;
use crate::requests::place;
use nvme_device::Span;
use nvme_driver::Request;
use nvme_spec::Command;
use std::alloc::Global;

/// The blocks of a request on a reservation: none.
const NO_BLOCKS: Span = Span {
    slba: 0,
    blocks: 0,
    bytes: 0,
};

/// Places a Reservation Register: `action` is RREGA, 0 to 7, and `cptpl` 0 to 3.
#[unsafe(no_mangle)]
pub extern "C" fn nvmehost_register(
    alloc: Global,
    host: &mut Handle,
    nsid: u32,
    action: u8,
    iekey: bool,
    cptpl: u8,
    crkey: u64,
    nrkey: u64,
) -> Placed
    ensures { Places (λ h. request_refusal h nsid command.ReservationRegister (zeroing 0 0))
        (Register nsid action iekey cptpl crkey nrkey) host.old.slot.value result host.new.slot.value }
{
    let request = Request::Register {
        nsid,
        action,
        iekey,
        cptpl,
        crkey,
        nrkey,
    };
    place(
        alloc,
        host,
        request,
        nsid,
        Command::ReservationRegister,
        NO_BLOCKS,
    )
}

/// Places a Reservation Acquire: `action` is RACQA, 0 to 7.
#[unsafe(no_mangle)]
pub extern "C" fn nvmehost_acquire(
    alloc: Global,
    host: &mut Handle,
    nsid: u32,
    action: u8,
    rtype: u8,
    crkey: u64,
    prkey: u64,
) -> Placed
    ensures { Places (λ h. request_refusal h nsid command.ReservationAcquire (zeroing 0 0))
        (Acquire nsid action rtype crkey prkey) host.old.slot.value result host.new.slot.value }
{
    let request = Request::Acquire {
        nsid,
        action,
        rtype,
        crkey,
        prkey,
    };
    place(
        alloc,
        host,
        request,
        nsid,
        Command::ReservationAcquire,
        NO_BLOCKS,
    )
}

/// Places a Reservation Release: `action` is RRELA, 0 to 7.
#[unsafe(no_mangle)]
pub extern "C" fn nvmehost_release(
    alloc: Global,
    host: &mut Handle,
    nsid: u32,
    action: u8,
    rtype: u8,
    crkey: u64,
) -> Placed
    ensures { Places (λ h. request_refusal h nsid command.ReservationRelease (zeroing 0 0))
        (Release nsid action rtype crkey) host.old.slot.value result host.new.slot.value }
{
    let request = Request::Release {
        nsid,
        action,
        rtype,
        crkey,
    };
    place(
        alloc,
        host,
        request,
        nsid,
        Command::ReservationRelease,
        NO_BLOCKS,
    )
}

/// Places a Reservation Report of 1 to 32,768 double words, by the extended data structure.
#[unsafe(no_mangle)]
pub extern "C" fn nvmehost_report(
    alloc: Global,
    host: &mut Handle,
    nsid: u32,
    dwords: u32,
) -> Placed
    ensures { Places (λ h. request_refusal h nsid command.ReservationReport (reporting dwords))
        (Report nsid dwords) host.old.slot.value result host.new.slot.value }
{
    let span = Span {
        slba: 0,
        blocks: 0,
        bytes: 4 * u64::from(dwords),
    };
    let request = Request::Report { nsid, dwords };
    place(alloc, host, request, nsid, Command::ReservationReport, span)
}
