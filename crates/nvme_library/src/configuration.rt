//! A configuration as C passes it.

ghost use Rattle.std.specs.Prelude.{◌≡◌, ◌≤◌, ◌++◌, drop, length, map, IfOk};
ghost use Rattle.nvme_ns.specs.Configured.{configuration};
ghost use Rattle.nvme_library.specs.Given.{
  configuration_of,
  controller_of,
  given_controller,
  given_namespace,
  given_pair,
  namespace_of,
  pair_of,
};

use nvme_spec::{Config, ControllerConfig, HostId, NsConfig};
use std::alloc::{AllocError, Global};

/// A controller and its host.
#[repr(C)]
#[derive(Clone, Copy)]
pub struct Controller {
    /// The lower 64 bits of the host identifier. The whole identifier is not 0.
    pub host_low: u64,
    /// Its higher 64 bits.
    pub host_high: u64,
    /// The controller identifier: k for the k-th controller of a configuration, from 1.
    pub cntlid: u16,
    /// Whether its line says `raw`. This affects only the line, since each host is raw here.
    pub raw: bool,
}

/// A namespace.
#[repr(C)]
#[derive(Clone, Copy)]
pub struct Namespace {
    /// Its size in blocks of 512 bytes, 1 to 65,536.
    pub blocks: u64,
    /// The namespace identifier, 1 to 8.
    pub nsid: u32,
    /// Whether several controllers may be attached to it at a time.
    pub shared: bool,
}

/// A controller that is attached to a namespace.
#[repr(C)]
#[derive(Clone, Copy)]
pub struct Attached {
    pub nsid: u32,
    pub cntlid: u16,
}

impl Controller {
    fn config(&self) -> ControllerConfig
        ensures { result ≡ controller_of self.now }
    {
        let high = HostId::from(self.host_high) * 0x1_0000_0000_0000_0000;
        ControllerConfig {
            cntlid: self.cntlid,
            host: high + HostId::from(self.host_low),
            raw: self.raw,
        }
    }
}

impl Namespace {
    fn config(&self) -> NsConfig
        ensures { result ≡ namespace_of self.now }
    {
        NsConfig {
            nsid: self.nsid,
            blocks: self.blocks,
            shared: self.shared,
        }
    }
}

fn controller_configs(
    alloc: Global,
    controllers: &[Controller],
) -> Result<Vec<ControllerConfig>, AllocError>
    ensures { IfOk result (λ configs. configs.items ≡ map controller_of controllers.now) }
{
    let mut configs = Vec::with_capacity(alloc, controllers.len())?;
    for controller in controllers {
        configs.push_reserved(controller.config());
    }
    Ok(configs)
}

fn namespace_configs(alloc: Global, namespaces: &[Namespace]) -> Result<Vec<NsConfig>, AllocError>
    ensures { IfOk result (λ configs. configs.items ≡ map namespace_of namespaces.now) }
{
    let mut configs = Vec::with_capacity(alloc, namespaces.len())?;
    for namespace in namespaces {
        configs.push_reserved(namespace.config());
    }
    Ok(configs)
}

fn attached_pairs(alloc: Global, attached: &[Attached]) -> Result<Vec<(u16, u32)>, AllocError>
    ensures { IfOk result (λ pairs. pairs.items ≡ map pair_of attached.now) }
{
    let mut pairs = Vec::with_capacity(alloc, attached.len())?;
    for pair in attached {
        pairs.push_reserved((pair.cntlid, pair.nsid));
    }
    Ok(pairs)
}

/// The configuration of these controllers, namespaces and attachments.
///
/// # Errors
///
/// `AllocError` if memory for it is refused.
pub(crate) fn config_of(
    alloc: Global,
    controllers: &[Controller],
    namespaces: &[Namespace],
    attached: &[Attached],
) -> Result<Config, AllocError>
    ensures { IfOk result
        (λ config. configuration config ≡ configuration_of controllers.now namespaces.now attached.now) }
{
    Ok(Config {
        controllers: controller_configs(alloc, controllers)?,
        namespaces: namespace_configs(alloc, namespaces)?,
        attached: attached_pairs(alloc, attached)?,
    })
}

impl Controller {
    /// A controller of a configuration, as C has it.
    fn of(config: &ControllerConfig) -> Self
        ensures { result ≡ given_controller config.now }
    {
        Controller {
            host_low: (config.host % 0x1_0000_0000_0000_0000) as u64,
            host_high: (config.host / 0x1_0000_0000_0000_0000) as u64,
            cntlid: config.cntlid,
            raw: config.raw,
        }
    }
}

/// Puts controllers at the front of an array, which must be long enough.
pub(crate) fn put_controllers(configs: &[ControllerConfig], controllers: &mut [Controller])
    requires { length configs.now ≤ length controllers.old }
    ensures { controllers.new ≡ map given_controller configs.now ++ drop (length configs.now) controllers.old }
{
    for i in 0..configs.len() {
        controllers[i] = Controller::of(&configs[i]);
    }
}

/// Puts namespaces at the front of an array, which must be long enough.
pub(crate) fn put_namespaces(configs: &[NsConfig], namespaces: &mut [Namespace])
    requires { length configs.now ≤ length namespaces.old }
    ensures { namespaces.new ≡ map given_namespace configs.now ++ drop (length configs.now) namespaces.old }
{
    for i in 0..configs.len() {
        namespaces[i] = Namespace {
            blocks: configs[i].blocks,
            nsid: configs[i].nsid,
            shared: configs[i].shared,
        };
    }
}

/// Puts attachments at the front of an array, which must be long enough.
pub(crate) fn put_attached(pairs: &[(u16, u32)], attached: &mut [Attached])
    requires { length pairs.now ≤ length attached.old }
    ensures { attached.new ≡ map given_pair pairs.now ++ drop (length pairs.now) attached.old }
{
    for i in 0..pairs.len() {
        attached[i] = Attached {
            nsid: pairs[i].1,
            cntlid: pairs[i].0,
        };
    }
}
