//! Identify: the data structures of a namespace and of the controller, and the list of attached namespaces.

ghost use Rattle.std.specs.Prelude.{◌≡◌, ◌&&◌, nat_lt, length};
ghost use Rattle.nvme_spec.specs.World.{is_attached};
ghost use Rattle.nvme_wire.specs.Submission.{nsid};
ghost use Rattle.nvme_spec.specs.AdminEffects.{identify_data};
ghost use Rattle.nvme_spec.specs.Identify as spec;
ghost use Rattle.nvme_spec.specs.Transfers.{addresses, with_scattered};
ghost use Rattle.nvme_admin.specs.Fields.{name_fields, kind_fields, command_fields};

use crate::fields;
use crate::structure::{put_text, put_u8, put_u16, put_u32, put_u64};
use nvme_mem::Window;
use nvme_ns::{Namespace, Spaces};
use nvme_prp::{Pieces, scatter};
use nvme_spec::OPTIONAL_COMMANDS;
use nvme_wire::Sqe;

/// The length of each structure in bytes.
const STRUCTURE: usize = 4096;

/// The highest namespace identifier, and the first above it.
const HIGHEST_NSID: u32 = 8;

const NO_NSID: u32 = 9;

/// Stores the structure of an Identify at the data's pieces. It is built once.
pub fn identify(spaces: &Spaces, window: &mut Window, cntlid: u16, sqe: &Sqe, pieces: &Pieces)
    requires size { length (addresses pieces.now.parts.items) ≡ 4096 }
    ensures stored { window.new ≡ with_scattered window.old (addresses pieces.now.parts.items)
        (identify_data spaces.now cntlid sqe.now) }
{
    let mut structure = [0; STRUCTURE];
    fill(&mut structure, spaces, cntlid, sqe);
    scatter(window, pieces, &structure);
}

/// Fills a structure of zeros.
fn fill(structure: &mut [u8], spaces: &Spaces, cntlid: u16, sqe: &Sqe)
    requires zeros { structure.old ≡ spec.no_fields }
    ensures filled { structure.new ≡ identify_data spaces.now cntlid sqe.now }
    ensures size { length structure.new ≡ length structure.old }
{
    match fields::cns(sqe) {
        fields::NAMESPACE_STRUCTURE => fill_attached(structure, spaces, cntlid, sqe.nsid()),
        fields::CONTROLLER_STRUCTURE => fill_controller(structure, cntlid),
        _ => fill_list(structure, spaces, cntlid, sqe.nsid()),
    }
}

/// Writes the fields of a namespace if it is attached to the controller.
#[tactic(auto, unfolding(nvme_spec::specs::Identify::identify_namespace))]
fn fill_attached(structure: &mut [u8], spaces: &Spaces, cntlid: u16, nsid: u32)
    requires zeros { structure.old ≡ spec.no_fields }
    ensures filled { structure.new ≡ spec.identify_attached spaces.now cntlid nsid }
    ensures size { length structure.new ≡ length structure.old }
{
    if let Some(namespace) = spaces.namespace(nsid) {
        if spaces.is_attached(cntlid, nsid) {
            fill_namespace(structure, namespace);
        }
    }
}

/// Writes the fields of a namespace.
fn fill_namespace(structure: &mut [u8], namespace: &Namespace)
    requires whole { length structure.old ≡ 4096 }
    ensures filled { structure.new ≡ spec.with_fields structure.old (spec.namespace_fields namespace.now) }
    ensures size { length structure.new ≡ length structure.old }
{
    // NSZE, NCAP, NUSE: its size, its capacity and its use, in blocks.
    put_u64(structure, 0, namespace.blocks());
    put_u64(structure, 8, namespace.blocks());
    put_u64(structure, 16, namespace.blocks());
    // NMIC: whether it may be attached to several controllers.
    put_u8(structure, 30, u8::from(namespace.is_shared()));
    // RESCAP: persist through power loss; the six reservation types; IEKEY as in revision 1.3 and later.
    put_u8(structure, 31, 0xff);
    // NSATTR: whether it is write protected.
    put_u8(structure, 99, u8::from(namespace.is_protected()));
    // LBAF0: LBADS, blocks of 2 to the power of 9 bytes.
    put_u8(structure, 130, 9);
}

/// Writes the fields of a controller.
fn fill_controller(structure: &mut [u8], cntlid: u16)
    requires zeros { structure.old ≡ spec.no_fields }
    ensures filled { structure.new ≡ spec.identify_controller cntlid }
    ensures size { length structure.new ≡ length structure.old }
{
    fill_names(structure);
    fill_kind(structure, cntlid);
    fill_commands(structure);
}

/// Writes the vendor's fields.
fn fill_names(structure: &mut [u8])
    requires whole { length structure.old ≡ 4096 }
    ensures filled { structure.new ≡ spec.with_fields structure.old name_fields }
    ensures size { length structure.new ≡ length structure.old }
{
    // SN, MN, FR: serial number, model number, firmware revision.
    put_text(structure, 4, 20, b"NVMESIM");
    put_text(structure, 24, 40, b"Multi-Host Subsystem");
    put_text(structure, 64, 8, b"1.0");
}

/// Writes the fields on the kind of controller.
fn fill_kind(structure: &mut [u8], cntlid: u16)
    requires whole { length structure.old ≡ 4096 }
    ensures filled { structure.new ≡ spec.with_fields structure.old (kind_fields cntlid) }
    ensures size { length structure.new ≡ length structure.old }
{
    // CMIC: the subsystem has several controllers.
    put_u8(structure, 76, 0x02);
    // MDTS: transfers of at most 2 to the power of 5 pages.
    put_u8(structure, 77, 5);
    put_u16(structure, 78, cntlid);
    // VER 2.0.
    put_u32(structure, 80, 0x0002_0000);
    // CTRATT: host identifiers of 128 bits.
    put_u32(structure, 96, 0x0000_0001);
    // CNTRLTYPE: an I/O controller.
    put_u8(structure, 111, 1);
    // OACS: Namespace Attachment.
    put_u16(structure, 256, 0x0008);
}

/// Writes the fields on its I/O commands.
fn fill_commands(structure: &mut [u8])
    requires whole { length structure.old ≡ 4096 }
    ensures filled { structure.new ≡ spec.with_fields structure.old command_fields }
    ensures size { length structure.new ≡ length structure.old }
{
    // SQES, CQES: entries of 64 and of 16 bytes.
    put_u8(structure, 512, 0x66);
    put_u8(structure, 513, 0x44);
    // NN: the highest namespace identifier.
    put_u32(structure, 516, HIGHEST_NSID);
    // ONCS.
    put_u16(structure, 520, OPTIONAL_COMMANDS);
    // VWC: no volatile write cache; Flush does not take the broadcast identifier.
    put_u8(structure, 525, 0x04);
    // NWPC: namespaces can be write protected, also until a power cycle.
    put_u8(structure, 531, 3);
}

/// Writes the identifiers above `nsid` of the namespaces attached to the controller.
#[tactic(auto, unfolding(nvme_spec::specs::Identify::namespace_list))]
fn fill_list(structure: &mut [u8], spaces: &Spaces, cntlid: u16, nsid: u32)
    requires zeros { structure.old ≡ spec.no_fields }
    ensures filled { structure.new ≡ spec.namespace_list (spec.attached_above spaces.now cntlid nsid) }
    ensures size { length structure.new ≡ length structure.old }
{
    let mut at = 0;
    for n in 1..NO_NSID {
        if is_listed(spaces, cntlid, nsid, n) {
            put_u32(structure, at, n);
            at += 4;
        }
    }
}

/// Whether a namespace is attached to the controller, and its identifier above `nsid`.
fn is_listed(spaces: &Spaces, cntlid: u16, nsid: u32, n: u32) -> bool
    ensures { result ≡ (nat_lt nsid n && is_attached spaces.now cntlid n) }
{
    n > nsid && spaces.is_attached(cntlid, n)
}
