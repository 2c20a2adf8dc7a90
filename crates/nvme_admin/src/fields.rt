//! The fields of an admin command's entry.

ghost use Rattle.std.specs.Prelude.{◌≡◌};
ghost use Rattle.nvme_spec.specs.AdminCommands as spec;

use nvme_wire::Sqe;

/// The features, by their identifiers: Number of Queues, Host Identifier, Namespace Write Protection Config.
pub const NUMBER_OF_QUEUES: u8 = 0x07;

pub const HOST_IDENTIFIER: u8 = 0x81;

pub const WRITE_PROTECTION: u8 = 0x84;

/// The data structures of Identify: a namespace, the controller, the list of the namespaces attached to it.
pub const NAMESPACE_STRUCTURE: u8 = 0x00;

pub const CONTROLLER_STRUCTURE: u8 = 0x01;

pub const NAMESPACE_LIST: u8 = 0x02;

/// The identifier of the queue that is created or deleted (QID).
#[tactic(auto, unfolding(nvme_spec::specs::AdminCommands::qid))]
pub fn qid(sqe: &Sqe) -> u16
    ensures { result ≡ spec.qid sqe.now }
{
    (sqe.cdw10() & 0xffff) as u16
}

/// The number of entries of the queue, 1 to 65,536: one more than its field (QSIZE).
#[tactic(auto, unfolding(nvme_spec::specs::AdminCommands::queue_size))]
pub fn queue_size(sqe: &Sqe) -> u32
    ensures { result ≡ spec.queue_size sqe.now }
{
    (sqe.cdw10() >> 16) + 1
}

/// Whether the queue is physically contiguous (PC).
#[tactic(auto, unfolding(nvme_spec::specs::AdminCommands::pc))]
pub fn pc(sqe: &Sqe) -> bool
    ensures { result ≡ spec.pc sqe.now }
{
    sqe.cdw11() & 1 == 1
}

/// The completion queue of a submission queue (CQID).
#[tactic(auto, unfolding(nvme_spec::specs::AdminCommands::cqid))]
pub fn cqid(sqe: &Sqe) -> u16
    ensures { result ≡ spec.cqid sqe.now }
{
    (sqe.cdw11() >> 16) as u16
}

/// The data structure for Identify (CNS).
#[tactic(auto, unfolding(nvme_spec::specs::AdminCommands::cns))]
pub fn cns(sqe: &Sqe) -> u8
    ensures { result ≡ spec.cns sqe.now }
{
    (sqe.cdw10() & 0xff) as u8
}

/// The feature that is set or read (FID).
#[tactic(auto, unfolding(nvme_spec::specs::AdminCommands::fid))]
pub fn fid(sqe: &Sqe) -> u8
    ensures { result ≡ spec.fid sqe.now }
{
    (sqe.cdw10() & 0xff) as u8
}

/// Whether the feature is saved through power cycles and resets (SV).
#[tactic(auto, unfolding(nvme_spec::specs::AdminCommands::sv))]
pub fn sv(sqe: &Sqe) -> bool
    ensures { result ≡ spec.sv sqe.now }
{
    sqe.cdw10() >> 31 == 1
}

/// The number of I/O submission queues requested, less one (NSQR).
#[tactic(auto, unfolding(nvme_spec::specs::AdminCommands::nsqr))]
pub fn nsqr(sqe: &Sqe) -> u16
    ensures { result ≡ spec.nsqr sqe.now }
{
    (sqe.cdw11() & 0xffff) as u16
}

/// The number of I/O completion queues requested, less one (NCQR).
#[tactic(auto, unfolding(nvme_spec::specs::AdminCommands::ncqr))]
pub fn ncqr(sqe: &Sqe) -> u16
    ensures { result ≡ spec.ncqr sqe.now }
{
    (sqe.cdw11() >> 16) as u16
}

/// The write protection to set, 0 to 7: 0 is none, 1 write protected, 2 write protected until a power cycle (WPS).
#[tactic(auto, unfolding(nvme_spec::specs::AdminCommands::wps))]
pub fn wps(sqe: &Sqe) -> u32
    ensures { result ≡ spec.wps sqe.now }
{
    sqe.cdw11() & 0b111
}

/// Whether the host identifier has the extended form of 16 bytes (EXHID).
#[tactic(auto, unfolding(nvme_spec::specs::AdminCommands::exhid))]
pub fn exhid(sqe: &Sqe) -> bool
    ensures { result ≡ spec.exhid sqe.now }
{
    sqe.cdw11() & 1 == 1
}

/// The operation of a Namespace Attachment, 0 to 15: 0 attaches, 1 detaches (SEL).
#[tactic(auto, unfolding(nvme_spec::specs::AdminCommands::sel))]
pub fn sel(sqe: &Sqe) -> u32
    ensures { result ≡ spec.sel sqe.now }
{
    sqe.cdw10() & 0b1111
}
