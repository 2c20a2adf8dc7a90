//! What a power cycle leaves of a cluster.

ghost use Rattle.std.specs.Prelude.{◌≡◌, [], ◌∷◌, ◌*◌, ◌^◌, false, slice_range};
ghost use Rattle.nvme_spec.specs.Entries.{transfer_entry};
ghost use Rattle.nvme_spec.specs.World.{with_reservation, with_protection};
ghost use Rattle.nvme_spec.specs.IoRules.{verdict};
ghost use Rattle.nvme_spec.specs.Power.{cycled_reservation, cycled_protection, cycled_world};
ghost use Rattle.nvme_spec.specs.Reservation.{unreserved};
ghost use Rattle.nvme_spec.specs.AdminExamples.{cluster_world};
ghost use Rattle.nvme_spec.specs.ReservationExamples.{state, persistent, a1};
ghost use Rattle.nvme_spec.specs.ClusterExamples.{after_sent, verdict_on, report_on, registers, acquires};
ghost use Rattle.nvme_spec.specs.Statuses as status;
ghost use Rattle.nvme_spec.specs.declared.verdict.Verdict.TheVariants.{Allowed, Denied};

use crate::access::{Hold, Protection};
use crate::command::Command;

/// Host a1h registers with CPTPL 11b, so that its registration persists, and acquires namespace 1 with Write Exclusive.
fn registrations_that_persist()
    ensures asked_for { after_sent cluster_world (registers 1 (3 * 2 ^ 30) 0 0x11 ∷ acquires 1 0 1 0x11 0 ∷ [])
        ≡ with_reservation cluster_world 1 (persistent (a1 0x11 ∷ []) (Hold.One 1 0xa1) 1) }
    ensures reported { slice_range (report_on (with_reservation cluster_world 1
        (persistent (a1 0x11 ∷ []) (Hold.One 1 0xa1) 1)) 1 24) 8 12
        ≡ 0 ∷ 1 ∷ 0 ∷ 0 ∷ [] }
    ensures outlasts { cycled_reservation (persistent (a1 0x11 ∷ []) (Hold.One 1 0xa1) 1)
        ≡ persistent (a1 0x11 ∷ []) (Hold.One 1 0xa1) 1 }
    ensures still_fenced { verdict (cycled_world (with_reservation cluster_world 1
        (persistent (a1 0x11 ∷ []) (Hold.One 1 0xa1) 1))) 2 (transfer_entry 1 1 0 1) false
        ≡ Denied 7 status.reservation_conflict }
    ensures given_up { after_sent (with_reservation cluster_world 1 (persistent (a1 0x11 ∷ []) Hold.Free 1))
        (registers 1 (2 * 2 ^ 30) 0 0x11 ∷ [])
        ≡ with_reservation cluster_world 1 (state (a1 0x11 ∷ []) Hold.Free 2) }
    ensures kept { after_sent (with_reservation cluster_world 1 (persistent (a1 0x11 ∷ []) Hold.Free 1))
        (registers 1 0 0 0x11 ∷ [])
        ≡ with_reservation cluster_world 1 (persistent (a1 0x11 ∷ []) Hold.Free 2) }
    ensures reserved_value { verdict_on cluster_world (registers 1 (2 ^ 30) 0 0x11)
        ≡ Denied 6 status.invalid_field_in_command }
{}

/// The same without it: after the power cycle nobody is registered.
fn registrations_that_do_not()
    ensures gone { cycled_reservation (state (a1 0x11 ∷ []) (Hold.One 1 0xa1) 1) ≡ unreserved }
    ensures unfenced { verdict (cycled_world (with_reservation cluster_world 1
        (state (a1 0x11 ∷ []) (Hold.One 1 0xa1) 1))) 2 (transfer_entry 1 1 0 1) false
        ≡ Allowed (record { kind = Command.Write; first = 0; blocks = 1; bytes = 512 }) }
    ensures world { cycled_world (with_reservation cluster_world 1 (state (a1 0x11 ∷ []) (Hold.One 1 0xa1) 1))
        ≡ cluster_world }
{}

/// Write protection until a power cycle ends there, any other stays.
fn protections()
    ensures until_cycle { cycled_world (with_protection cluster_world 1 Protection.UntilCycle) ≡ cluster_world }
    ensures plain { cycled_protection Protection.Protected ≡ Protection.Protected }
    ensures denied { verdict (with_protection cluster_world 1 Protection.UntilCycle) 1 (transfer_entry 1 1 0 1) false
        ≡ Denied 8 status.namespace_is_write_protected }
{}
