//! Verdicts on commands of a cluster's controllers, as reservations, attachments and protection change.

ghost use Rattle.std.specs.Prelude.{◌≡◌, [], ◌∷◌, ◌++◌, replicate, true, false};
ghost use Rattle.nvme_spec.specs.Entries.{transfer_entry, command_entry};
ghost use Rattle.nvme_spec.specs.World.{with_reservation, with_protection};
ghost use Rattle.nvme_spec.specs.Execution.{no_marks, world_after};
ghost use Rattle.nvme_spec.specs.IoRules.{verdict};
ghost use Rattle.nvme_spec.specs.Attachments.{without_attached};
ghost use Rattle.nvme_spec.specs.AdminExamples.{cluster_world};
ghost use Rattle.nvme_spec.specs.ReservationExamples.{state, a1, b2, c3};
ghost use Rattle.nvme_spec.specs.ClusterExamples.{
  after_sent,
  verdict_on,
  outcome_on,
  report_on,
  marks_on,
  registers,
  acquires,
  releases,
};
ghost use Rattle.nvme_spec.specs.Statuses as status;
ghost use Rattle.nvme_spec.specs.declared.verdict.Verdict.TheVariants.{Allowed, Denied};

use crate::access::{Hold, Protection};
use crate::command::Command;

/// Blocks of the shared namespace of 64 blocks, and of the private one of 8.
fn ranges()
    ensures largest_address { verdict cluster_world 1 (transfer_entry 2 1 0xffffffffffffffff 1) false
        ≡ Denied 9 status.lba_out_of_range }
    ensures last_block { verdict cluster_world 1 (transfer_entry 2 2 7 1) false
        ≡ Allowed (record { kind = Command.Read; first = 7; blocks = 1; bytes = 512 }) }
    ensures over_the_end { verdict cluster_world 1 (transfer_entry 2 2 7 2) false ≡ Denied 9 status.lba_out_of_range }
    ensures zeroes { verdict cluster_world 1 (transfer_entry 8 2 0 8) false
        ≡ Allowed (record { kind = Command.WriteZeroes; first = 0; blocks = 8; bytes = 0 }) }
    ensures long { verdict cluster_world 1 (transfer_entry 2 1 0 257) false ≡ Denied 6 status.invalid_field_in_command }
    ensures private { verdict cluster_world 2 (transfer_entry 2 2 0 1) false
        ≡ Denied 5 status.invalid_field_in_command }
{}

/// Host a1h registers, and acquires namespace 1 with Write Exclusive: host b2h may read, but not write.
fn write_exclusive()
    ensures reserved { after_sent cluster_world (registers 1 0 0 0x11 ∷ acquires 1 0 1 0x11 0 ∷ [])
        ≡ with_reservation cluster_world 1 (state (a1 0x11 ∷ []) (Hold.One 1 0xa1) 1) }
    ensures write { verdict (after_sent cluster_world (registers 1 0 0 0x11 ∷ acquires 1 0 1 0x11 0
        ∷ [])) 2 (transfer_entry 1 1 0 1) false ≡ Denied 7 status.reservation_conflict }
    ensures read { verdict (after_sent cluster_world (registers 1 0 0 0x11 ∷ acquires 1 0 1 0x11 0
        ∷ [])) 2 (transfer_entry 2 1 0 1) false
        ≡ Allowed (record { kind = Command.Read; first = 0; blocks = 1; bytes = 512 }) }
    ensures reservation_before_range { verdict (after_sent cluster_world (registers 1 0 0 0x11 ∷ acquires 1 0 1 0x11 0
        ∷ [])) 2 (transfer_entry 1 1 64 1) false ≡ Denied 7 status.reservation_conflict }
    ensures other_type { verdict_on (after_sent cluster_world (registers 1 0 0 0x11 ∷ acquires 1 0 1 0x11 0 ∷ []))
        (releases 1 0 3 0x11)
        ≡ Denied 11 status.invalid_field_in_command }
    ensures released { after_sent cluster_world
        (registers 1 0 0 0x11 ∷ acquires 1 0 1 0x11 0 ∷ releases 1 0 1 0x11 ∷ [])
        ≡ with_reservation cluster_world 1 (state (a1 0x11 ∷ []) Hold.Free 1) }
    ensures range { verdict
        (after_sent cluster_world (registers 1 0 0 0x11 ∷ acquires 1 0 1 0x11 0 ∷ releases 1 0 1 0x11
        ∷ [])) 2 (transfer_entry 1 1 64 1) false ≡ Denied 9 status.lba_out_of_range }
{}

/// Under Exclusive Access - Registrants Only of host a1h its other controller reads, while host b2h may not.
fn roles_by_host()
    ensures other_controller { verdict (after_sent cluster_world (registers 1 0 0 0x11 ∷ acquires 1 0 4 0x11 0
        ∷ [])) 3 (transfer_entry 2 1 0 1) false
        ≡ Allowed (record { kind = Command.Read; first = 0; blocks = 1; bytes = 512 }) }
    ensures other_host { verdict (after_sent cluster_world (registers 1 0 0 0x11 ∷ acquires 1 0 4 0x11 0
        ∷ [])) 2 (transfer_entry 2 1 0 1) false ≡ Denied 7 status.reservation_conflict }
{}

/// A controller is detached while its command waits.
fn detached()
    ensures before { verdict cluster_world 2 (transfer_entry 2 1 0 1) false
        ≡ Allowed (record { kind = Command.Read; first = 0; blocks = 1; bytes = 512 }) }
    ensures after { verdict (without_attached cluster_world 1 (2 ∷ [])) 2 (transfer_entry 2 1 0 1) false
        ≡ Denied 5 status.invalid_field_in_command }
{}

/// Host a1h preempts host b2h: a command that was marked is aborted, a later one is denied by the reservation.
fn preempted()
    ensures removed { after_sent cluster_world (registers 1 0 0 0x11 ∷ registers 2 0 0 0x22 ∷ acquires 1 0 2 0x11 0
        ∷ acquires 1 1 2 0x11 0x22 ∷ [])
        ≡ with_reservation cluster_world 1 (state (a1 0x11 ∷ []) (Hold.One 2 0xa1) 3) }
    ensures marked { verdict
        (after_sent cluster_world (registers 1 0 0 0x11 ∷ registers 2 0 0 0x22 ∷ acquires 1 0 2 0x11 0
        ∷ acquires 1 1 2 0x11 0x22 ∷ [])) 2 (transfer_entry 2 1 0 1) true
        ≡ Denied 1 status.command_aborted_due_to_preempt_and_abort }
    ensures later { verdict
        (after_sent cluster_world (registers 1 0 0 0x11 ∷ registers 2 0 0 0x22 ∷ acquires 1 0 2 0x11 0
        ∷ acquires 1 1 2 0x11 0x22 ∷ [])) 2 (transfer_entry 2 1 0 1) false ≡ Denied 7 status.reservation_conflict }
    ensures no_registrant { verdict_on cluster_world (acquires 1 0 2 0x11 0) ≡ Denied 11 status.reservation_conflict }
{}

/// Under Exclusive Access - All Registrants host b2h preempts all others, and acquires another type.
fn preempted_all()
    ensures taken { after_sent cluster_world (registers 1 0 0 0x11 ∷ registers 2 0 0 0x22 ∷ acquires 1 0 6 0x11 0
        ∷ acquires 2 1 1 0x22 0 ∷ []) ≡ with_reservation cluster_world 1 (state (b2 0x22 ∷ []) (Hold.One 1 0xb2) 3) }
    ensures report { report_on (with_reservation cluster_world 1 (state (b2 0x22 ∷ []) (Hold.One 1 0xb2) 3)) 1 128 ≡
        3 ∷ 0 ∷ 0 ∷ 0 ∷ 1 ∷ 1 ∷ replicate 58 0 ++ 2 ∷ 0 ∷ 1 ∷ replicate 5 0 ++ 0x22 ∷ replicate 7 0
        ++ 0xb2 ∷ replicate 47 0 }
    ensures single { verdict_on
        (after_sent cluster_world (registers 1 0 0 0x11 ∷ registers 2 0 0 0x22 ∷ acquires 1 0 6 0x11 0
        ∷ acquires 2 1 1 0x22 0 ∷ [])) (acquires 2 1 3 0x22 0) ≡ Denied 11 status.invalid_field_in_command }
{}

/// Under Write Exclusive - All Registrants the reservation lasts until the last registrant is gone.
fn last_registrant()
    ensures one_left { after_sent cluster_world (registers 1 0 0 0x11 ∷ registers 2 0 0 0x22 ∷ registers 4 0 0 0x33
        ∷ acquires 1 0 5 0x11 0 ∷ registers 1 1 0x11 0 ∷ registers 2 1 0x22 0 ∷ [])
        ≡ with_reservation cluster_world 1 (state (c3 0x33 ∷ []) (Hold.All 5) 5) }
    ensures outsider { verdict (with_reservation cluster_world 1 (state (c3 0x33
        ∷ []) (Hold.All 5) 5)) 1 (transfer_entry 1 1 0 1) false ≡ Denied 7 status.reservation_conflict }
    ensures none_left { after_sent (with_reservation cluster_world 1 (state (c3 0x33 ∷ []) (Hold.All 5) 5))
        (registers 4 1 0x33 0 ∷ [])
        ≡ with_reservation cluster_world 1 (state [] Hold.Free 6) }
    ensures report { report_on (with_reservation cluster_world 1 (state [] Hold.Free 6)) 1 64 ≡ 6 ∷ replicate 63 0 }
    ensures everyone { verdict (with_reservation cluster_world 1 (state [] Hold.Free 6)) 1
        (transfer_entry 1 1 0 1) false
        ≡ Allowed (record { kind = Command.Write; first = 0; blocks = 1; bytes = 512 }) }
{}

/// A reservation command changes the reservation of its namespace, unless it is refused.
fn one_reservation_changes()
    ensures registered { world_after cluster_world 1 (outcome_on cluster_world (registers 1 0 0 0x11))
        ≡ with_reservation cluster_world 1 (state (a1 0x11 ∷ []) Hold.Free 1) }
    ensures refused { world_after cluster_world 1 (outcome_on cluster_world (acquires 1 0 1 0x11 0)) ≡ cluster_world }
{}

/// Preempt and Abort names the host that it removed; Preempt names none.
fn marks()
    ensures aborting { marks_on (with_reservation cluster_world 1 (state (a1 0x11 ∷ b2 0x22 ∷ []) (Hold.One 2 0xa1) 2))
        (acquires 1 2 2 0x11 0x22)
        ≡ record { nsid = 1; hosts = record { items = 0xb2 ∷ [] } } }
    ensures preempting { marks_on
        (with_reservation cluster_world 1 (state (a1 0x11 ∷ b2 0x22 ∷ []) (Hold.One 2 0xa1) 2))
        (acquires 1 1 2 0x11 0x22)
        ≡ no_marks }
    ensures refused { marks_on (with_reservation cluster_world 1 (state (a1 0x11 ∷ b2 0x22 ∷ []) (Hold.One 2 0xa1) 2))
        (acquires 1 2 2 0x11 0x33)
        ≡ no_marks }
{}

/// A write protected namespace can be read and flushed, but not written.
fn write_protected()
    ensures zeroes { verdict (with_protection cluster_world 1 Protection.Protected) 2 (transfer_entry 8 1 0 1) false
        ≡ Denied 8 status.namespace_is_write_protected }
    ensures write { verdict (with_protection cluster_world 1 Protection.Protected) 1 (transfer_entry 1 1 64 1) false
        ≡ Denied 8 status.namespace_is_write_protected }
    ensures read { verdict (with_protection cluster_world 1 Protection.Protected) 2 (transfer_entry 2 1 0 1) false
        ≡ Allowed (record { kind = Command.Read; first = 0; blocks = 1; bytes = 512 }) }
    ensures flush { verdict (with_protection cluster_world 1 Protection.Protected) 2 (command_entry 0 1 0 0 0) false
        ≡ Allowed (record { kind = Command.Flush; first = 0; blocks = 0; bytes = 0 }) }
{}
