//! Opens a fleet.

ghost use Rattle.std.specs.Prelude.{◌≡◌, map, replicate, IfOk, unwrap_or};
ghost use Rattle.nvme_spec.specs.Configuration.{capacity, config_fault};
ghost use Rattle.nvme_spec.specs.Limits.{most_bytes};
ghost use Rattle.nvme_spec.specs.declared.config.ConfigFault.TheVariants.{NoMemory as WantOfMemory};
ghost use Rattle.nvme_ns.specs.Configured.{configuration};
ghost use Rattle.nvme_fleet.specs.FleetStates.{opening_driver};

use nvme_driver::Driver;
use nvme_ns::Spaces;
use nvme_spec::{Config, ConfigFault, ControllerConfig, MOST_BYTES};
use nvme_wire::NoMemory;
use std::alloc::Global;

/// The memory of a fleet besides its subsystem's: the driver of each controller's host, and a buffer for the data of an
/// event.
#[derive(Drop)]
pub(crate) struct Rooms {
    pub(crate) drivers: Vec<Option<Driver>>,
    pub(crate) buffer: Vec<u8>,
}

/// The driver of a controller's host, unless it is raw: it is down, and its first ticket is 1.
fn driver_of(config: &ControllerConfig) -> Option<Driver>
    ensures { result ≡ opening_driver config.now }
{
    if config.raw {
        None
    } else {
        Some(Driver::new())
    }
}

/// The drivers of a configuration.
///
/// # Errors
///
/// `NoMemory` if memory for them is refused.
fn drivers_of(alloc: Global, configs: &[ControllerConfig]) -> Result<Vec<Option<Driver>>, NoMemory>
    ensures { IfOk result (λ drivers. drivers.items ≡ map opening_driver configs.now) }
{
    let mut drivers = Vec::with_capacity(alloc, configs.len())?;
    for config in configs {
        drivers.push_reserved(driver_of(config));
    }
    Ok(drivers)
}

/// The memory of a fleet of these controllers besides its subsystem's.
///
/// # Errors
///
/// `NoMemory` if it is refused.
pub(crate) fn rooms_of(alloc: Global, configs: &[ControllerConfig]) -> Result<Rooms, NoMemory>
    ensures drivers { IfOk result (λ rooms. rooms.drivers.items ≡ map opening_driver configs.now) }
    ensures buffer { IfOk result (λ rooms. rooms.buffer.items ≡ replicate most_bytes 0) }
{
    Ok(Rooms {
        drivers: drivers_of(alloc, configs)?,
        buffer: vec![in alloc; 0; MOST_BYTES]?,
    })
}

/// Why a configuration can't be opened after memory was refused: its first fault, otherwise `NoMemory`.
pub(crate) fn fault_of(config: &Config, max_blocks: u64, medium_blocks: u64) -> ConfigFault
    ensures { result
        ≡ unwrap_or (config_fault (configuration config.now) (capacity max_blocks medium_blocks)) WantOfMemory }
{
    match Spaces::within(config, max_blocks, medium_blocks) {
        Ok(_) => ConfigFault::NoMemory,
        Err(fault) => fault,
    }
}
