//! The access state of a subsystem: hosts, namespaces and attachments.

ghost use Rattle.std.specs.Prelude.{
  ◌≡◌,
  ◌==◌,
  ◌≤◌,
  None,
  Some,
  length,
  map,
  IfOk,
  IfErr,
  option_map,
  option_copied,
  IsSome,
  position,
};
ghost use Rattle.nvme_spec.specs.Configuration.{capacity, config_fault, first_config_fault};
ghost use Rattle.nvme_spec.specs.Report.{HasRisingIds};
ghost use Rattle.nvme_spec.specs.World as world;
ghost use Rattle.nvme_spec.specs.Power.{cycled_namespace, cycled_world};
ghost use Rattle.std.specs.Borrow.{sem};
ghost use Rattle.nvme_ns.specs.Configured.{configuration};
ghost use Rattle.nvme_ns.specs.Lending.{LendsReservation};

use crate::Namespace;
use crate::checks::check;
use crate::opening::{attachment_table, controller_table, namespace_table};
use crate::pairs::{PairTable, is_pair, pair_number, pair_table};
use crate::refusal::{MAX_ATTACHMENTS, MAX_BLOCKS, MAX_CONTROLLERS, MAX_NAMESPACES};
use arrayvec::ArrayVec;
use nvme_resv::Reservation;
use nvme_spec::{Config, ConfigFault, HostId, Protection};
use std::marker::Model;

mod attaching;

/// The access state of a subsystem, in tables of fixed size, without memory of its own.
#[derive(Drop)]
pub struct Spaces {
    /// The identifier of each controller with its host: controller k is at index k - 1.
    controllers: ArrayVec<(u16, HostId), MAX_CONTROLLERS>,
    namespaces: ArrayVec<Namespace, MAX_NAMESPACES>,
    /// The identifier of a controller with that of a namespace.
    attachments: ArrayVec<(u16, u32), MAX_ATTACHMENTS>,
    /// The attachments as a table.
    pairs: PairTable,
}

impl Model for Spaces {
    ghost use Rattle.nvme_spec.specs.Report.{HasRisingIds};
    ghost use Rattle.nvme_spec.specs.World.{World as State};
    ghost use Rattle.nvme_ns.specs.Attached.{HasSmallIds, AreNumberedFrom, IsAttachmentTable, TellsPairs};

    ghost Value = { State };

    ghost view = { λ a. record {
      controllers = a.controllers.items;
      namespaces = a.namespaces.items;
      attachments = a.attachments.items;
    } };

    ghost invariant = { λ a. HasRisingIds a.controllers.items × HasSmallIds a.controllers.items
        × IsAttachmentTable a.attachments.items × AreNumberedFrom 1 a.controllers.items
        × TellsPairs a.pairs a.attachments.items };
}

impl Spaces {
    /// Opens a configuration over a medium of `medium_blocks` blocks: nobody is registered, nothing is reserved or
    /// write protected, and the namespaces are on the medium one after the other, in the order of the configuration.
    ///
    /// The first fault of the configuration, in the order `TooMany`, `BadId`, `BadSize`, `DoesNotFit`, refuses it. A
    /// namespace has at most 65,536 blocks.
    pub fn new(config: &Config, medium_blocks: u64) -> Result<Spaces, ConfigFault>
        ensures accepted { IfOk result (λ _. first_config_fault (configuration config.now) medium_blocks ≡ None) }
        ensures opened { IfOk result (λ spaces. spaces ≡ world.opening_world (configuration config.now)) }
        ensures within { IfOk result (λ spaces. world.LiesWithin medium_blocks spaces.namespaces) }
        ensures fault { IfErr result (λ fault. first_config_fault (configuration config.now) medium_blocks
            ≡ Some fault) }
    {
        Spaces::within(config, MAX_BLOCKS, medium_blocks)
    }

    /// Opens a configuration as `new` does, except that a namespace may have up to `max_blocks` blocks.
    #[tactic(auto, unfolding(nvme_spec::specs::World::opening_world))]
    pub fn within(
        config: &Config,
        max_blocks: u64,
        medium_blocks: u64,
    ) -> Result<Spaces, ConfigFault>
        ensures accepted { IfOk result
            (λ _. config_fault (configuration config.now) (capacity max_blocks medium_blocks) ≡ None) }
        ensures opened { IfOk result (λ spaces. spaces ≡ world.opening_world (configuration config.now)) }
        ensures within { IfOk result (λ spaces. world.LiesWithin medium_blocks spaces.namespaces) }
        ensures fault { IfErr result
            (λ fault. config_fault (configuration config.now) (capacity max_blocks medium_blocks) ≡ Some fault) }
    {
        check(config, max_blocks, medium_blocks)?;
        Ok(Spaces {
            controllers: controller_table(&config.controllers),
            namespaces: namespace_table(&config.namespaces),
            attachments: attachment_table(&config.attached),
            pairs: pair_table(&config.attached),
        })
    }

    /// The identifiers of all controllers with their hosts, by rising identifier.
    pub fn controllers(&self) -> &[(u16, HostId)]
        ensures listed { result.now ≡ self.now.controllers }
        ensures few { length self.now.controllers ≤ 16 }
        ensures rising { HasRisingIds self.now.controllers }
    {
        self.controllers.as_slice()
    }

    /// The namespaces, in the order of the configuration.
    pub fn namespaces(&self) -> &[Namespace]
        ensures { result.now ≡ self.now.namespaces }
    {
        self.namespaces.as_slice()
    }

    /// The attachments: the identifier of a controller with that of a namespace.
    pub fn attachments(&self) -> &[(u16, u32)]
        ensures { result.now ≡ self.now.attachments }
    {
        self.attachments.as_slice()
    }

    /// The host of a controller, or `None` for a controller that isn't configured.
    #[tactic(auto, unfolding(nvme_spec::specs::World::host_of))]
    pub fn host_of(&self, cntlid: u16) -> Option<HostId>
        ensures host { result ≡ world.host_of self.now cntlid }
        ensures few { length self.now.controllers ≤ 16 }
    {
        let controllers = self.controllers.as_slice();
        let index = usize::from(cntlid).checked_sub(1)?;
        Some(controllers.get(index)?.1)
    }

    /// Whether a namespace is attached to a controller; false if one of them isn't configured.
    #[tactic(auto, unfolding(nvme_spec::specs::World::is_attached))]
    pub fn is_attached(&self, cntlid: u16, nsid: u32) -> bool
        ensures { result ≡ world.is_attached self.now cntlid nsid }
    {
        is_pair(cntlid, nsid) && self.pairs[pair_number(cntlid, nsid)]
    }

    /// The namespace with this identifier, or `None` if it isn't configured.
    #[tactic(auto, unfolding(nvme_spec::specs::World::namespace_of))]
    pub fn namespace(&self, nsid: u32) -> Option<&Namespace>
        ensures { option_copied result ≡ world.namespace_of self.now nsid }
    {
        self.namespaces.iter().find(|n| n.nsid() == nsid)
    }

    /// The first block of a namespace on the medium, or `None` if it isn't configured.
    pub fn first_block(&self, nsid: u32) -> Option<u64>
        ensures { result ≡ option_map (λ n. n.first) (world.namespace_of self.now nsid) }
    {
        Some(self.namespace(nsid)?.first_block())
    }

    /// The size of a namespace in blocks, or `None` if it isn't configured.
    pub fn blocks(&self, nsid: u32) -> Option<u64>
        ensures { result ≡ option_map (λ n. n.blocks) (world.namespace_of self.now nsid) }
    {
        Some(self.namespace(nsid)?.blocks())
    }

    /// The reservation of a namespace, or `None` if it isn't configured.
    pub fn reservation(&self, nsid: u32) -> Option<&Reservation>
        ensures { option_copied result ≡ option_map (λ n. n.reservation) (world.namespace_of self.now nsid) }
    {
        Some(self.namespace(nsid)?.reservation())
    }

    /// The write protection of a namespace, or `None` if it isn't configured.
    pub fn protection(&self, nsid: u32) -> Option<Protection>
        ensures { result ≡ option_map (λ n. n.protection) (world.namespace_of self.now nsid) }
    {
        Some(self.namespace(nsid)?.protection())
    }

    /// Whether a namespace may be attached to several controllers, or `None` if it isn't configured.
    pub fn shared(&self, nsid: u32) -> Option<bool>
        ensures { result ≡ option_map (λ n. n.shared) (world.namespace_of self.now nsid) }
    {
        Some(self.namespace(nsid)?.is_shared())
    }

    /// Borrows the reservation of a namespace, which must be configured. Nothing else changes.
    pub fn reservation_mut(&mut self, nsid: u32) -> &mut Reservation
        requires { IsSome (world.namespace_of self.old nsid) }
        ensures* writes_back { sem 𝓛 (LendsReservation self.entry nsid result) }
        ensures value { option_map (λ n. n.reservation) (world.namespace_of self.old nsid) ≡ Some result.now }
    {
        let index = index_of(&self.namespaces, nsid).unwrap();
        self.namespaces.get_mut(index).unwrap().reservation_mut()
    }

    /// Sets the write protection of a namespace, which must be configured. Nothing else changes.
    pub fn set_protection(&mut self, nsid: u32, protection: Protection)
        requires { IsSome (world.namespace_of self.old nsid) }
        ensures { self.new ≡ world.with_protection self.old nsid protection }
    {
        let index = index_of(&self.namespaces, nsid).unwrap();
        self.namespaces
            .get_mut(index)
            .unwrap()
            .set_protection(protection);
    }

    /// Applies a power cycle: each namespace keeps what persists of its reservation, and write protection until a
    /// power cycle ends. Nothing else changes.
    #[tactic(auto, unfolding(nvme_spec::specs::Power::cycled_world))]
    pub fn power_cycle(&mut self)
        ensures { self.new ≡ cycled_world self.old }
    {
        power_cycle_all(self.namespaces.as_mut_slice());
    }
}

/// Applies a power cycle to each namespace.
fn power_cycle_all(namespaces: &mut [Namespace])
    ensures { namespaces.new ≡ map cycled_namespace namespaces.old }
{
    for i in 0..namespaces.len() {
        namespaces[i].power_cycle();
    }
}

/// The index of the namespace with this identifier.
fn index_of(namespaces: &[Namespace], nsid: u32) -> Option<usize>
    ensures { result ≡ position (λ n. n.nsid == nsid) namespaces.now }
{
    namespaces.iter().position(|n| n.nsid() == nsid)
}
