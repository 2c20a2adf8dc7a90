//! Which requests the blocks of a namespace take.

ghost use Rattle.std.specs.Prelude.{◌≡◌, ◌+◌, nat_le};
ghost use Rattle.nvme_device.specs.Admissions.{is_supported, is_short, judged, admission_of};

use crate::controller::{ControllerFacts, ControllerFault};
use crate::namespace::{NamespaceFacts, NamespaceFault};
use nvme_spec::Command;

/// The blocks of a request.
#[derive(Clone, Copy, Debug)]
pub struct Span {
    /// The first block.
    pub slba: u64,
    /// The number of blocks; 0 if the request is on the whole namespace.
    pub blocks: u64,
    /// The number of bytes that it transfers.
    pub bytes: u64,
}

/// Whether a request may be sent, or why not.
#[derive(Clone, Copy, Debug, PartialEq, Eq)]
pub enum Admission {
    /// It may.
    Admitted,
    /// The controller was not asked what it supports.
    ControllerNotAsked,
    /// The controller does not suit the driver.
    Controller(ControllerFault),
    /// The namespace was not asked for its format.
    NamespaceNotAsked,
    /// The driver can't access the blocks of this namespace.
    Namespace(NamespaceFault),
    /// ONCS: the controller does not support the command.
    NotSupported,
    /// MDTS: the controller does not transfer this number of bytes at once.
    TooLong,
    /// NSZE: some of the blocks are after the last one of the namespace.
    PastTheEnd,
}

/// Whether a controller supports a command, by ONCS.
fn is_supported(command: Command, oncs: u16) -> bool
    ensures { result ≡ is_supported command oncs }
{
    match command {
        Command::Flush | Command::Write | Command::Read => true,
        Command::Compare => oncs & 1 == 1,
        Command::WriteZeroes => (oncs >> 3) & 1 == 1,
        Command::ReservationRegister
        | Command::ReservationReport
        | Command::ReservationAcquire
        | Command::ReservationRelease => (oncs >> 5) & 1 == 1,
    }
}

/// Whether a transfer of `bytes` bytes is within MDTS: no number of 64 bits is above 2 to the power of 52 pages.
fn is_short(mdts: u8, bytes: u64) -> bool
    ensures { result ≡ is_short mdts bytes }
{
    mdts == 0 || mdts > 51 || bytes <= 2_u64.pow(u32::from(mdts) + 12)
}

/// Whether the blocks of a request are all in a namespace of `blocks` blocks.
fn is_inside(span: Span, blocks: u64) -> bool
    ensures { result ≡ nat_le (span.slba + span.blocks) blocks }
{
    match span.slba.checked_add(span.blocks) {
        Some(end) => end <= blocks,
        None => false,
    }
}

/// Judges a request over what is known of its controller and its namespace.
fn judge(
    controller: ControllerFacts,
    namespace: NamespaceFacts,
    command: Command,
    span: Span,
) -> Admission
    ensures { result ≡ judged controller namespace command span }
{
    if !is_supported(command, controller.oncs) {
        return Admission::NotSupported;
    }
    if !is_short(controller.mdts, span.bytes) {
        return Admission::TooLong;
    }
    if !is_inside(span, namespace.blocks) {
        return Admission::PastTheEnd;
    }
    Admission::Admitted
}

impl Admission {
    /// Judges a request over the last answers of its controller and of its namespace: the first reason to refuse it, in
    /// the order of `Admission`.
    pub fn of(
        controller: Option<Result<ControllerFacts, ControllerFault>>,
        namespace: Option<Result<NamespaceFacts, NamespaceFault>>,
        command: Command,
        span: Span,
    ) -> Admission
        ensures { result ≡ admission_of controller namespace command span }
    {
        match (controller, namespace) {
            (None, _) => Admission::ControllerNotAsked,
            (Some(Err(fault)), _) => Admission::Controller(fault),
            (Some(Ok(_)), None) => Admission::NamespaceNotAsked,
            (Some(Ok(_)), Some(Err(fault))) => Admission::Namespace(fault),
            (Some(Ok(controller)), Some(Ok(namespace))) => {
                judge(controller, namespace, command, span)
            }
        }
    }
}
