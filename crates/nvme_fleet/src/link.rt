//! A host's access to its controller.

ghost use Rattle.std.specs.Prelude.{◌≡◌, ◌<◌, length};
ghost use Rattle.nvme_spec.specs.Memory.{window_size};
ghost use Rattle.nvme_fleet.specs.Linked.{linked_controller};

use nvme_driver::{Lane, Port, entry_seen};
use nvme_machine::{BareSeen, Event};
use nvme_medium::Medium;
use nvme_mem::Window;
use nvme_spec::Piece;
use nvme_subsys::Subsystem;
use nvme_wire::Cqe;
use std::marker::Model;

/// A controller of a subsystem, as its host's driver reaches it: each call is events of that controller. A turn is a
/// fetch from the admin queue, and an execution of the first fetched command.
#[derive(Drop)]
pub(crate) struct Link<'a, M: Medium> {
    pub(crate) subsystem: &'a mut Subsystem<M>,
    pub(crate) cntlid: u16,
}

impl<'a, M: Medium> Model for Link<'a, M> {
    ghost use Rattle.std.specs.Prelude.{◌-◌};
    ghost use Rattle.nvme_subsys.specs.OverMedium.{OverMedium};
    ghost use Rattle.nvme_fleet.specs.Linked.{Linked, IsThere};

    ghost Value = { OverMedium Linked M };

    ghost view = { λ p. record {
      state = record { subsystem = p.subsystem.now.state; place = p.cntlid - 1; name = p.subsystem.ghost_name };
      medium = p.subsystem.now.medium;
    } };

    ghost invariant = { λ p. IsThere p.subsystem.now.state p.cntlid };
}

impl<M: Medium> Link<'_, M> {
    /// The window of its controller.
    #[inline(always)]
    fn window(&self) -> &Window
        ensures bytes { result.now ≡ (linked_controller self.now.state).window }
        ensures there { self.now.state.place < length self.now.state.subsystem.controllers }
    {
        self.subsystem.controller(self.cntlid).unwrap().window()
    }

    /// Its window has its whole length, like every window.
    #[inline(always)]
    fn is_whole(&self)
        ensures { length (linked_controller self.now.state).window ≡ window_size }
    {
        self.window().bytes(Piece { address: 0, len: 0 });
    }
}

impl<M: Medium> Port for Link<'_, M> {
    ghost use Rattle.std.specs.Prelude.{◌≡◌, [], ◌∷◌};
    ghost use Rattle.nvme_fleet.specs.LinkCalls.{CallOverMedium};
    ghost use Rattle.nvme_fleet.specs.Linked.{linked_controller};

    ghost bytes = { λ p. (linked_controller p.state).window };

    ghost step = { CallOverMedium M.step M.tells };

    ghost links = { λ p. p.state.name ∷ [] };

    #[inline(always)]
    fn store(&mut self, addr: u64, part: &[u8]) {
        self.is_whole();
        self.subsystem.react(Event::Store(self.cntlid, addr, part));
    }

    #[inline(always)]
    fn read32(&mut self, offset: u64) -> u32 {
        match self.subsystem.react(Event::Read32(self.cntlid, offset)) {
            BareSeen::Value(value) => value,
            _ => unreachable!(),
        }
    }

    #[inline(always)]
    fn write32(&mut self, offset: u64, value: u32) {
        self.subsystem
            .react(Event::Write32(self.cntlid, offset, value));
    }

    fn turn(&mut self) {
        self.subsystem.apply(Event::Fetch(self.cntlid, 0));
        self.subsystem.apply(Event::Execute(self.cntlid, 0));
    }

    #[inline(always)]
    fn sees(&mut self, lane: Lane, head: u16, phase: bool) -> Option<Cqe> {
        entry_seen(self.window(), lane, head, phase)
    }

    #[inline(always)]
    fn loads(&mut self, addr: u64, part: &mut [u8]) {
        let place = Piece {
            address: addr,
            len: part.len() as u64,
        };
        part.copy_from_slice(self.window().bytes(place));
    }
}
