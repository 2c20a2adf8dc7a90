//! The fields of an I/O command's entry.

ghost use Rattle.std.specs.Prelude.{◌≡◌};
ghost use Rattle.nvme_spec.specs.Commands as spec;

use nvme_wire::Sqe;

/// The first logical block of a transfer (Starting LBA).
#[tactic(auto, unfolding(nvme_spec::specs::Commands::starting_lba))]
pub fn starting_lba(sqe: &Sqe) -> u64
    ensures { result ≡ spec.starting_lba sqe.now }
{
    u64::from(sqe.cdw10()) + (u64::from(sqe.cdw11()) << 32)
}

/// The number of logical blocks of a transfer, 1 to 65,536 (Number of Logical Blocks).
#[tactic(auto, unfolding(nvme_spec::specs::Commands::block_count))]
pub fn block_count(sqe: &Sqe) -> u32
    ensures { result ≡ spec.block_count sqe.now }
{
    (sqe.cdw12() & 0xffff) + 1
}

/// The action of a reservation command, 0 to 7.
#[tactic(auto, unfolding(nvme_spec::specs::Commands::action))]
pub fn action(sqe: &Sqe) -> u32
    ensures { result ≡ spec.action sqe.now }
{
    sqe.cdw10() & 0b111
}

/// Whether the command ignores the existing key (IEKEY).
#[tactic(auto, unfolding(nvme_spec::specs::Commands::iekey))]
pub fn iekey(sqe: &Sqe) -> bool
    ensures { result ≡ spec.iekey sqe.now }
{
    (sqe.cdw10() >> 3) & 1 == 1
}

/// The change of persistence through power loss, 0 to 3: 0 none, 2 clears it, 3 sets it (CPTPL).
#[tactic(auto, unfolding(nvme_spec::specs::Commands::cptpl))]
pub fn cptpl(sqe: &Sqe) -> u32
    ensures { result ≡ spec.cptpl sqe.now }
{
    sqe.cdw10() >> 30
}

/// The reservation type, 0 to 255 (RTYPE).
#[tactic(auto, unfolding(nvme_spec::specs::Commands::rtype))]
pub fn rtype(sqe: &Sqe) -> u8
    ensures { result ≡ spec.rtype sqe.now }
{
    ((sqe.cdw10() >> 8) & 0xff) as u8
}

/// Whether the command requests the extended data structure of a report (EDS).
#[tactic(auto, unfolding(nvme_spec::specs::Commands::eds))]
pub fn eds(sqe: &Sqe) -> bool
    ensures { result ≡ spec.eds sqe.now }
{
    sqe.cdw11() & 1 == 1
}

/// The length of the report that a command requests: 4 bytes for each double word, one more than the field's number.
#[tactic(auto, unfolding(nvme_spec::specs::Commands::report_length))]
pub fn report_length(sqe: &Sqe) -> u64
    ensures { result ≡ spec.report_length sqe.now }
{
    4 * (u64::from(sqe.cdw10()) + 1)
}
