//! Opens and closes a subsystem.

ghost use Rattle.std.specs.Prelude.{◌≡◌, None, Some, IfOk, IfErr};
ghost use Rattle.nvme_spec.specs.Configuration.{capacity};
ghost use Rattle.nvme_spec.specs.declared.config.ConfigFault.TheVariants.{NoMemory};
ghost use Rattle.nvme_lent.specs.OwnOrLent.{bytes_of, blocks_of, failures_of};
ghost use Rattle.nvme_library.specs.Given.{configuration_of};
ghost use Rattle.nvme_library.specs.Opening.{
  Opens,
  OpensDisk,
  OpensOn,
  IsFault,
  fault_number,
  returned_by,
  lent_by,
  HasLastState,
};

use crate::codes;
use crate::configuration::{Attached, Controller, Namespace, config_of};
use crate::handle::Handle;
use crate::held::Held;
use nvme_brought::{BroughtMedium, Disk};
use nvme_lent::{LentBytes, LentMedium, OwnOrLent};
use nvme_medium::MemMedium;
use nvme_spec::ConfigFault;
use nvme_subsys::{NewFault, Subsystem};
use std::alloc::Global;

/// Opens a subsystem over a copy of the whole blocks of these bytes. A namespace has at most `max_blocks` blocks.
///
/// Returns `OK`; or `BAD_VERSION`, `ALREADY_OPEN`, the first fault of the configuration, or `NO_MEMORY`, and then
/// nothing has changed.
#[unsafe(no_mangle)]
pub extern "C" fn nvmesim_open(
    alloc: Global,
    sim: &mut Handle,
    version: u32,
    max_blocks: u64,
    controllers: &[Controller],
    namespaces: &[Namespace],
    attached: &[Attached],
    bytes: &[u8],
) -> u32
    ensures { Opens version sim.old.slot.value max_blocks
        (configuration_of controllers.now namespaces.now attached.now) bytes.now None result sim.new.slot.value }
{
    if version != codes::VERSION {
        return codes::BAD_VERSION;
    }
    if sim.is_open() {
        return codes::ALREADY_OPEN;
    }
    let Ok(medium) = MemMedium::new(alloc, bytes) else {
        return codes::NO_MEMORY;
    };
    let medium = OwnOrLent::Own(medium);
    match opened(alloc, max_blocks, controllers, namespaces, attached, medium) {
        Ok(subsystem) => {
            *sim = Handle::of(subsystem);
            codes::OK
        }
        Err(refused) => number_of(refused.fault),
    }
}

/// Opens a subsystem in place, over the whole blocks of these bytes. The library uses them until the close returns
/// them. If it opens none, C gets all of them back at once, unchanged.
///
/// Returns what `nvmesim_open` does.
#[unsafe(no_mangle)]
pub extern "C" fn nvmesim_open_lent(
    alloc: Global,
    sim: &mut Handle,
    version: u32,
    max_blocks: u64,
    controllers: &[Controller],
    namespaces: &[Namespace],
    attached: &[Attached],
    bytes: LentBytes,
) -> u32
    ensures opens { Opens version sim.old.slot.value max_blocks
        (configuration_of controllers.now namespaces.now attached.now) bytes.items (Some bytes) result
        sim.new.slot.value }
    ensures returned { sim.new.returned.bytes ≡ returned_by result bytes }
{
    let medium = OwnOrLent::Lent(LentMedium::of(bytes));
    if version != codes::VERSION {
        sim.give_back(medium);
        return codes::BAD_VERSION;
    }
    if sim.is_open() {
        sim.give_back(medium);
        return codes::ALREADY_OPEN;
    }
    match opened(alloc, max_blocks, controllers, namespaces, attached, medium) {
        Ok(subsystem) => {
            *sim = Handle::of(subsystem);
            codes::OK
        }
        Err(refused) => {
            sim.give_back(refused.medium);
            number_of(refused.fault)
        }
    }
}

/// Opens a subsystem over a disk that only C accesses: C brings the blocks for each command (`nvmesim_execute_over`).
/// None is at hand until then.
///
/// Returns what `nvmesim_open` does.
#[unsafe(no_mangle)]
pub extern "C" fn nvmesim_open_brought(
    alloc: Global,
    sim: &mut Handle,
    version: u32,
    max_blocks: u64,
    controllers: &[Controller],
    namespaces: &[Namespace],
    attached: &[Attached],
    disk: Disk,
) -> u32
    ensures { OpensDisk version sim.old.slot.value max_blocks
        (configuration_of controllers.now namespaces.now attached.now) disk result sim.new.slot.value }
{
    if version != codes::VERSION {
        return codes::BAD_VERSION;
    }
    if sim.is_open() {
        return codes::ALREADY_OPEN;
    }
    let medium = OwnOrLent::Brought(BroughtMedium::of(disk));
    match opened(alloc, max_blocks, controllers, namespaces, attached, medium) {
        Ok(subsystem) => {
            *sim = Handle::of(subsystem);
            codes::OK
        }
        Err(refused) => number_of(refused.fault),
    }
}

/// Closes a subsystem, if one is open, and frees its memory. C gets its bytes back, as the commands have left them.
#[unsafe(no_mangle)]
pub extern "C" fn nvmesim_close(alloc: Global, sim: &mut Handle)
    ensures closed { sim.new.slot.value ≡ None }
    ensures returned { sim.new.returned.bytes ≡ lent_by sim.old.slot.value }
    ensures last { HasLastState sim.old.slot.value sim.new.returned.bytes }
{
    if let Some(subsystem) = sim.take(alloc) {
        sim.give_back(Box::into_inner(subsystem).into_medium());
    }
}

/// The version of the interface, which `nvmesim_open` requires.
#[unsafe(no_mangle)]
pub extern "C" fn nvmesim_version() -> u32
    ensures { result ≡ 3 }
{
    codes::VERSION
}

/// Opens a configuration over a medium, on the heap.
fn opened(
    alloc: Global,
    max_blocks: u64,
    controllers: &[Controller],
    namespaces: &[Namespace],
    attached: &[Attached],
    medium: OwnOrLent,
) -> Result<Box<Held>, NewFault<OwnOrLent>>
    requires unfailed { failures_of medium ≡ 0 }
    ensures opened { IfOk result
        (λ subsystem. OpensOn (configuration_of controllers.now namespaces.now attached.now) (bytes_of medium)
        (capacity max_blocks (blocks_of medium)) subsystem.value) }
    ensures over { IfOk result (λ subsystem. subsystem.value.medium ≡ medium) }
    ensures fault { IfErr result
        (λ refused. IsFault (configuration_of controllers.now namespaces.now attached.now)
        (capacity max_blocks (blocks_of medium)) refused.fault) }
    ensures kept { IfErr result (λ refused. refused.medium ≡ medium) }
{
    let Ok(config) = config_of(alloc, controllers, namespaces, attached) else {
        return Err(without_memory(medium));
    };
    let subsystem = Subsystem::within(alloc, &config, max_blocks, medium)?;
    match Box::new(alloc, Held::of(subsystem)) {
        Ok(boxed) => Ok(boxed),
        Err(refused) => Err(without_memory(refused.value.into_medium())),
    }
}

/// Memory was refused, and the medium is unchanged.
fn without_memory(medium: OwnOrLent) -> NewFault<OwnOrLent>
    ensures { result ≡ record { fault = NoMemory; medium = medium } }
{
    NewFault {
        fault: ConfigFault::NoMemory,
        medium,
    }
}

/// The code of a fault.
pub(crate) fn number_of(fault: ConfigFault) -> u32
    ensures { result ≡ fault_number fault }
{
    match fault {
        ConfigFault::BadId => codes::BAD_ID,
        ConfigFault::BadSize => codes::BAD_SIZE,
        ConfigFault::TooMany => codes::TOO_MANY,
        ConfigFault::DoesNotFit => codes::DOES_NOT_FIT,
        ConfigFault::NoMemory => codes::NO_MEMORY,
    }
}
