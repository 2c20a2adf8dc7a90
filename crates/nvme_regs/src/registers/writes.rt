//! Writes of registers.

ghost use Rattle.std.specs.Prelude.{◌≡◌};
ghost use Rattle.nvme_spec.specs.Registers as register;
ghost use Rattle.nvme_spec.specs.RegisterLaws.{IsConsistent, TellsItsEffect, NamesQueue};

use super::Registers;
use crate::doorbell::doorbell;
use crate::fields::{
    completion_entries, is_admin_queue, is_enabled, is_shutdown, is_supported, submission_entries,
    with_notification,
};
use crate::halves::{with_high, with_low};
use crate::offset;
use crate::state::is_ready;
use nvme_spec::{ControllerState, RegEffect};

/// CC and the state after a write of CC, and its effect on the controller.
#[derive(Clone, Copy)]
struct Configured {
    cc: u32,
    state: ControllerState,
    effect: RegEffect,
}

impl Registers {
    ghost use Rattle.nvme_regs.specs.Configuring.{Leaves};

    /// Writes `v` to the register at `offset`, and returns the effect on the controller. A write is ignored if there is
    /// no register, or if the register is read-only at present. A doorbell write takes effect only while CSTS.RDY is 1,
    /// and its value is not stored.
    pub fn write32(&mut self, offset: u64, v: u32) -> RegEffect
        ensures registers { self.new ≡ (register.after_write self.old offset v).registers }
        ensures effect { result ≡ (register.after_write self.old offset v).effect }
        // What the effect implies for the controller before and after the write.
        ensures tells { TellsItsEffect self.old offset v self.new result }
        ensures names { NamesQueue result }
    {
        self.write(offset, v)
    }

    /// The write by its definition. The registers are consistent, so the effect's implications follow.
    #[tactic(auto, unfolding(nvme_spec::specs::Registers::after_write))]
    fn write(&mut self, offset: u64, v: u32) -> RegEffect
        ensures written { register.after_write self.old offset v ≡ register.written self.new result }
        ensures consistent { IsConsistent self.old }
    {
        let was_ready = is_ready(self.state);
        if offset == offset::CC {
            return self.configure(v);
        }
        self.prepare(offset, v);
        if was_ready {
            doorbell(offset, v)
        } else {
            RegEffect::Nothing
        }
    }

    /// Writes CC.
    fn configure(&mut self, v: u32) -> RegEffect
        ensures { register.configured self.old v ≡ register.written self.new result }
    {
        let Configured { cc, state, effect } = self.configured(v);
        self.cc = cc;
        self.state = state;
        effect
    }

    /// The result of a write of CC.
    #[tactic(auto, unfolding(nvme_spec::specs::Registers::configured))]
    fn configured(&self, v: u32) -> Configured
        ensures { Leaves self.now (register.configured self.now v) result }
    {
        match (is_enabled(self.cc), is_enabled(v)) {
            (false, false) => Configured {
                cc: v,
                state: self.state,
                effect: RegEffect::Nothing,
            },
            (false, true) => self.enabled(v),
            (true, true) => self.notified(v),
            (true, false) => Configured {
                cc: v,
                state: ControllerState::Off,
                effect: RegEffect::Disable,
            },
        }
    }

    /// CC.EN changes from 0 to 1: the controller is enabled with these values, or fails (CSTS.CFS).
    fn enabled(&self, cc: u32) -> Configured
        ensures { Leaves self.now (register.enabled (record self.now { cc = cc })) result }
    {
        if !self.can_enable(cc) {
            return Configured {
                cc,
                state: ControllerState::Failed,
                effect: RegEffect::Nothing,
            };
        }
        let state = if is_shutdown(cc) {
            ControllerState::ShutDown
        } else {
            ControllerState::Ready
        };
        Configured {
            cc,
            state,
            effect: RegEffect::Enable,
        }
    }

    /// Whether the controller supports CC and the prepared admin queues.
    #[tactic(auto, unfolding(nvme_spec::specs::Registers::can_enable))]
    fn can_enable(&self, cc: u32) -> bool
        ensures { result ≡ register.can_enable (record self.now { cc = cc }) }
    {
        is_supported(cc)
            && is_admin_queue(self.asq, submission_entries(self.aqa), 64)
            && is_admin_queue(self.acq, completion_entries(self.aqa), 16)
    }

    /// EN stays 1: a ready controller may be shut down. Nothing else of CC changes.
    fn notified(&self, v: u32) -> Configured
        ensures { Leaves self.now (register.notified self.now v) result }
    {
        let cc = with_notification(self.cc, v);
        if is_ready(self.state) && is_shutdown(v) {
            Configured {
                cc,
                state: ControllerState::ShutDown,
                effect: RegEffect::Shutdown,
            }
        } else {
            Configured {
                cc,
                state: self.state,
                effect: RegEffect::Nothing,
            }
        }
    }

    /// Writes a register of the admin queues, if EN is 0.
    #[tactic(auto, unfolding(nvme_spec::specs::Registers::prepared))]
    fn prepare(&mut self, offset: u64, v: u32)
        ensures { self.new ≡ register.prepared self.old offset v }
    {
        if is_enabled(self.cc) {
            return;
        }
        match offset {
            offset::AQA => self.aqa = v,
            offset::ASQ_LOW => self.asq = with_low(self.asq, v),
            offset::ASQ_HIGH => self.asq = with_high(self.asq, v),
            offset::ACQ_LOW => self.acq = with_low(self.acq, v),
            offset::ACQ_HIGH => self.acq = with_high(self.acq, v),
            _ => {}
        }
    }
}
