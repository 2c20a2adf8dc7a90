//! The registers of one controller.

ghost use Rattle.std.specs.Prelude.{◌≡◌, IfSome};
ghost use Rattle.nvme_spec.specs.Registers as register;
ghost use Rattle.nvme_spec.specs.RegisterLaws.{IsConsistent, ArePlaced};

use crate::fields::{completion_entries, submission_entries};
use crate::halves::{high, low};
use crate::offset;
use crate::state::{is_ready, status};
use nvme_spec::{AdminQueues, ControllerState};
use std::marker::Model;

mod writes;

/// CAP.MQES 63 (at most 64 entries a queue), CQR 1 (contiguous queues), TO 1, DSTRD 0.
const CAPABILITIES_LOW: u32 = 0x0101_003f;

/// CAP.CSS, the NVM command set, and MPSMIN and MPSMAX 0, pages of 4 KiB.
const CAPABILITIES_HIGH: u32 = 0x0000_0020;

/// Version 2.0.
const VERSION: u32 = 0x0002_0000;

/// The registers of a controller: Controller Configuration (CC), the state that Controller Status (CSTS) shows, the
/// Admin Queue Attributes (AQA), and the addresses of the admin submission and completion queue (ASQ, ACQ). Contracts
/// see them as the record `Registers` of these values.
#[derive(Clone, Copy, Debug)]
pub struct Registers {
    cc: u32,
    state: ControllerState,
    aqa: u32,
    asq: u64,
    acq: u64,
}

impl Model for Registers {
    ghost use Rattle.nvme_spec.specs.Registers.{Registers as Values};
    ghost use Rattle.nvme_spec.specs.RegisterLaws.{IsConsistent};

    ghost Value = { Values };

    ghost use Rattle.nvme_regs.specs.Shown.{shown};

    ghost view = { shown };

    ghost invariant = { λ r. IsConsistent (shown r) };

    ghost inverse = { λ r. record { cc = r.cc; state = r.state; aqa = r.aqa; asq = r.asq; acq = r.acq } };
}

impl Registers {
    /// The registers of a controller that was never enabled.
    pub fn new() -> Registers
        ensures { result ≡ register.initial_registers }
    {
        Registers {
            cc: 0,
            state: ControllerState::Off,
            aqa: 0,
            asq: 0,
            acq: 0,
        }
    }

    /// The value at an offset: 0 outside of registers, within a register, and for every doorbell.
    #[tactic(auto, unfolding(nvme_spec::specs::Registers::value_at))]
    pub fn read32(&self, offset: u64) -> u32
        ensures { result ≡ register.value_at self.now offset }
    {
        match offset {
            offset::CAP_LOW => CAPABILITIES_LOW,
            offset::CAP_HIGH => CAPABILITIES_HIGH,
            offset::VS => VERSION,
            offset::CC => self.cc,
            offset::CSTS => status(self.state),
            offset::AQA => self.aqa,
            offset::ASQ_LOW => low(self.asq),
            offset::ASQ_HIGH => high(self.asq),
            offset::ACQ_LOW => low(self.acq),
            offset::ACQ_HIGH => high(self.acq),
            _ => 0,
        }
    }

    /// The state of the controller.
    pub fn state(&self) -> ControllerState
        ensures state { result ≡ self.now.state }
        ensures consistent { IsConsistent self.now }
    {
        self.state
    }

    /// The admin queues, if RDY is 1. They begin pages, are in host memory, and have 2 to 64 entries.
    pub fn admin_queues(&self) -> Option<AdminQueues>
        ensures queues { result ≡ register.admin_queues self.now }
        ensures placed { IfSome result ArePlaced }
    {
        is_ready(self.state).then(|| AdminQueues {
            sq_base: self.asq,
            sq_size: submission_entries(self.aqa),
            cq_base: self.acq,
            cq_size: completion_entries(self.aqa),
        })
    }
}
