//! Requests are placed.

ghost use Rattle.std.specs.Prelude.{◌≡◌, length};
ghost use Rattle.nvme_spec.specs.declared.command.Command.TheVariants as command;
ghost use Rattle.nvme_driver.specs.declared.request.Request.TheVariants.{
  Read,
  Write,
  Compare,
  WriteZeroes,
  Flush,
  Identify,
};
ghost use Rattle.nvme_host.specs.Exports.{Places, Asks, moving, sending, zeroing};
ghost use Rattle.nvme_host.specs.Refusals.{request_refusal, stopped_by};

use crate::codes;
use crate::handle::Handle;
use crate::outcome::Placed;
use nvme_device::Span;
use nvme_driver::Request;
use nvme_spec::Command;
use std::alloc::Global;

/// Places a Read of 1 to 256 blocks.
#[unsafe(no_mangle)]
pub extern "C" fn nvmehost_read(
    alloc: Global,
    host: &mut Handle,
    nsid: u32,
    slba: u64,
    blocks: u32,
) -> Placed
    ensures { Places (λ h. request_refusal h nsid command.Read (moving slba blocks)) (Read nsid slba blocks)
        host.old.slot.value result host.new.slot.value }
{
    let blocks_u64 = u64::from(blocks);
    let span = Span {
        slba,
        blocks: blocks_u64,
        bytes: 512 * blocks_u64,
    };
    let request = Request::Read { nsid, slba, blocks };
    place(alloc, host, request, nsid, Command::Read, span)
}

/// Places a Write of 1 to 256 whole blocks.
#[unsafe(no_mangle)]
pub extern "C" fn nvmehost_write(
    alloc: Global,
    host: &mut Handle,
    nsid: u32,
    slba: u64,
    bytes: &[u8],
) -> Placed
    ensures { Places (λ h. request_refusal h nsid command.Write (sending slba (length bytes.now)))
        (Write nsid slba bytes.entry) host.old.slot.value result host.new.slot.value }
{
    let span = sent(slba, bytes);
    let request = Request::Write { nsid, slba, bytes };
    place(alloc, host, request, nsid, Command::Write, span)
}

/// Places a Compare of 1 to 256 whole blocks.
#[unsafe(no_mangle)]
pub extern "C" fn nvmehost_compare(
    alloc: Global,
    host: &mut Handle,
    nsid: u32,
    slba: u64,
    bytes: &[u8],
) -> Placed
    ensures { Places (λ h. request_refusal h nsid command.Compare (sending slba (length bytes.now)))
        (Compare nsid slba bytes.entry) host.old.slot.value result host.new.slot.value }
{
    let span = sent(slba, bytes);
    let request = Request::Compare { nsid, slba, bytes };
    place(alloc, host, request, nsid, Command::Compare, span)
}

/// Places a Write Zeroes of 1 to 65,536 blocks.
#[unsafe(no_mangle)]
pub extern "C" fn nvmehost_write_zeroes(
    alloc: Global,
    host: &mut Handle,
    nsid: u32,
    slba: u64,
    blocks: u32,
) -> Placed
    ensures { Places (λ h. request_refusal h nsid command.WriteZeroes (zeroing slba blocks))
        (WriteZeroes nsid slba blocks) host.old.slot.value result host.new.slot.value }
{
    let span = Span {
        slba,
        blocks: u64::from(blocks),
        bytes: 0,
    };
    let request = Request::WriteZeroes { nsid, slba, blocks };
    place(alloc, host, request, nsid, Command::WriteZeroes, span)
}

/// Places a Flush.
#[unsafe(no_mangle)]
pub extern "C" fn nvmehost_flush(alloc: Global, host: &mut Handle, nsid: u32) -> Placed
    ensures { Places (λ h. request_refusal h nsid command.Flush (zeroing 0 0)) (Flush nsid)
        host.old.slot.value result host.new.slot.value }
{
    let span = Span {
        slba: 0,
        blocks: 0,
        bytes: 0,
    };
    place(
        alloc,
        host,
        Request::Flush { nsid },
        nsid,
        Command::Flush,
        span,
    )
}

/// Places an Identify of any structure. The driver learns nothing from its answer.
#[unsafe(no_mangle)]
pub extern "C" fn nvmehost_identify(alloc: Global, host: &mut Handle, cns: u8, nsid: u32) -> Placed
    ensures { Places stopped_by (Identify cns nsid) host.old.slot.value result host.new.slot.value }
{
    let Some(mut open_driver) = host.take(alloc) else {
        return Placed::refused(codes::CLOSED);
    };
    let placed = open_driver.identify(cns, nsid);
    *host = Handle::of(open_driver);
    placed
}

/// Places the question about the controller, if `nsid` is 0, or about a namespace. The driver learns from its answer
/// which requests it may place; until then it knows nothing.
#[unsafe(no_mangle)]
pub extern "C" fn nvmehost_ask(alloc: Global, host: &mut Handle, nsid: u32) -> Placed
    ensures { Asks nsid host.old.slot.value result host.new.slot.value }
{
    let Some(mut open_driver) = host.take(alloc) else {
        return Placed::refused(codes::CLOSED);
    };
    let placed = open_driver.ask(nsid);
    *host = Handle::of(open_driver);
    placed
}

/// The blocks of a request that sends these bytes.
#[inline(always)]
fn sent(slba: u64, bytes: &[u8]) -> Span
    ensures { result ≡ sending slba (length bytes.now) }
{
    let len = bytes.len() as u64;
    Span {
        slba,
        blocks: len / 512,
        bytes: len,
    }
}

/// Places a request on a namespace.
#[inline(always)]
pub fn place(
    alloc: Global,
    host: &mut Handle,
    request: Request<'_>,
    nsid: u32,
    command: Command,
    span: Span,
) -> Placed
    ensures { Places (λ h. request_refusal h nsid command span) request.entry
        host.old.slot.value result host.new.slot.value }
{
    let Some(mut open_driver) = host.take(alloc) else {
        return Placed::refused(codes::CLOSED);
    };
    let refusal = open_driver.request_refusal(nsid, command, span);
    let placed = open_driver.place(refusal, &request);
    *host = Handle::of(open_driver);
    placed
}
