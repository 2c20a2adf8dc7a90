//! The rules for I/O commands, each alone, with its number and its status.
#![tactic(auto, unfolding(nvme_spec::specs::AdminExamples::cluster_world, nvme_spec::specs::AdminExamples::reserved_world, nvme_spec::specs::Commands::action, nvme_spec::specs::Commands::block_count, nvme_spec::specs::Commands::cptpl, nvme_spec::specs::Commands::eds, nvme_spec::specs::Commands::iekey, nvme_spec::specs::Commands::report_length, nvme_spec::specs::Commands::rtype, nvme_spec::specs::Entries::command_entry, nvme_spec::specs::IoRules::field_rule, nvme_spec::specs::IoRules::form_rule, nvme_spec::specs::IoRules::mark_rule, nvme_spec::specs::IoRules::nsid_rule, nvme_spec::specs::Rules::judgement_by, nvme_spec::specs::World::host_of, nvme_spec::specs::World::namespace_of, nvme_spec::specs::World::opening_world, nvme_wire::specs::Submission::cdw10, nvme_wire::specs::Submission::cdw11, nvme_wire::specs::Submission::cdw12, nvme_wire::specs::Submission::fuse, nvme_wire::specs::Submission::psdt))]

ghost use Rattle.std.specs.Prelude.{◌≡◌, ◌≤◌, [], None, Some, Ok, Err, true, false};
ghost use Rattle.nvme_spec.specs.declared.command.Command.TheVariants as Command;
ghost use Rattle.nvme_spec.specs.Entries.{command_entry};
ghost use Rattle.nvme_spec.specs.AdminExamples.{cluster_world, reserved_world};
ghost use Rattle.nvme_spec.specs.Rules.{judgement_by};
ghost use Rattle.nvme_spec.specs.World.{host_of, namespace_of};
ghost use Rattle.nvme_spec.specs.declared.verdict.Plan.{Plan};
ghost use Rattle.nvme_spec.specs.declared.verdict.Verdict.TheVariants.{Allowed, Denied};
ghost use Rattle.nvme_spec.specs.IoRules.{
  mark_rule,
  form_rule,
  is_no_nsid,
  nsid_rule,
  field_rule,
  permits_group,
  is_protected,
  has_blocks_below,
  conclusion,
  IfAllowed,
  IfDenied,
  FitsNamespace,
};

use nvme_spec::Group;

/// Rules 1, 3 and 4: the marked command, the fused one, the one with an SGL, and the identifiers of no namespace.
fn spec_rules_on_form()
    ensures marked { judgement_by (mark_rule true)
        ≡ Err (record { rule = 1; status = record { sct = 0; sc = 0x1b } }) }
    ensures not_marked { judgement_by (mark_rule false) ≡ Ok tt }
    ensures fused { judgement_by (form_rule (command_entry 0x0101 1 0 0 0))
        ≡ Err (record { rule = 3; status = record { sct = 0; sc = 0x02 } }) }
    ensures scattered { judgement_by (form_rule (command_entry 0x4001 1 0 0 0))
        ≡ Err (record { rule = 3; status = record { sct = 0; sc = 0x02 } }) }
    ensures plain { judgement_by (form_rule (command_entry 0xffff3cff 1 0 0 0)) ≡ Ok tt }
    ensures zero { is_no_nsid 0 ≡ true }
    ensures last { is_no_nsid 8 ≡ false }
    ensures above { is_no_nsid 9 ≡ true }
    ensures denied { judgement_by (nsid_rule 9)
        ≡ Err (record { rule = 4; status = record { sct = 0; sc = 0x0b } }) }
{}

/// Rule 6: the highest actions of reservation commands, and the first above each.
fn spec_actions()
    ensures replace { judgement_by (field_rule (Some Command.ReservationRegister) (command_entry 0x0d 1 0 2 0))
        ≡ Ok tt }
    ensures register_3 { judgement_by (field_rule (Some Command.ReservationRegister) (command_entry 0x0d 1 0 3 0))
        ≡ Err (record { rule = 6; status = record { sct = 0; sc = 0x02 } }) }
    ensures abort { judgement_by (field_rule (Some Command.ReservationAcquire) (command_entry 0x11 1 0 0x0602 0))
        ≡ Ok tt }
    ensures acquire_3 { judgement_by (field_rule (Some Command.ReservationAcquire) (command_entry 0x11 1 0 0x0603 0))
        ≡ Err (record { rule = 6; status = record { sct = 0; sc = 0x02 } }) }
    ensures clear { judgement_by (field_rule (Some Command.ReservationRelease) (command_entry 0x15 1 0 1 0)) ≡ Ok tt }
    ensures release_2 { judgement_by (field_rule (Some Command.ReservationRelease) (command_entry 0x15 1 0 2 0))
        ≡ Err (record { rule = 6; status = record { sct = 0; sc = 0x02 } }) }
{}

/// Rule 6: the reserved value of CPTPL, and the reservation types.
fn spec_reserved_values()
    ensures cptpl_1 { judgement_by
        (field_rule (Some Command.ReservationRegister) (command_entry 0x0d 1 0 0x40000000 0))
        ≡ Err (record { rule = 6; status = record { sct = 0; sc = 0x02 } }) }
    ensures cptpl_2 { judgement_by
        (field_rule (Some Command.ReservationRegister) (command_entry 0x0d 1 0 0x80000000 0)) ≡ Ok tt }
    ensures type_0 { judgement_by (field_rule (Some Command.ReservationAcquire) (command_entry 0x11 1 0 0x0000 0))
        ≡ Err (record { rule = 6; status = record { sct = 0; sc = 0x02 } }) }
    ensures type_1 { judgement_by (field_rule (Some Command.ReservationAcquire) (command_entry 0x11 1 0 0x0100 0))
        ≡ Ok tt }
    ensures type_7 { judgement_by (field_rule (Some Command.ReservationAcquire) (command_entry 0x11 1 0 0x0700 0))
        ≡ Err (record { rule = 6; status = record { sct = 0; sc = 0x02 } }) }
{}

/// Without a namespace, the rules on its reservation, its protection and its size pass: rule 5 denies the command.
fn spec_no_namespace()
    ensures permitted { permits_group None (Some 0xb2) Group.Write ≡ true }
    ensures not_protected { is_protected None ≡ false }
    ensures any_end { has_blocks_below None 5 ≡ true }
{}

/// Under Write Exclusive of host a1h, host b2h may only read. A controller without a host may not write either.
fn spec_permissions()
    ensures holder { permits_group (namespace_of reserved_world 1) (host_of reserved_world 1) Group.Write ≡ true }
    ensures writes { permits_group (namespace_of reserved_world 1) (host_of reserved_world 2) Group.Write ≡ false }
    ensures reads { permits_group (namespace_of reserved_world 1) (host_of reserved_world 2) Group.Read ≡ true }
    ensures no_host { permits_group (namespace_of reserved_world 1) None Group.Write ≡ false }
{}

/// The verdict by the judgement of all rules.
fn spec_conclusions()
    ensures denied { conclusion (Err (record { rule = 9; status = record { sct = 0; sc = 0x80 } }))
        (Some Command.Flush) [] ≡ Denied 9 (record { sct = 0; sc = 0x80 }) }
    ensures no_command { conclusion (Ok tt) None [] ≡ Denied 2 (record { sct = 0; sc = 0x01 }) }
    ensures allowed { conclusion (Ok tt) (Some Command.Flush) []
        ≡ Allowed (record { kind = Command.Flush; first = 0; blocks = 0; bytes = 0 }) }
{}

/// Properties of the plan of an allowed command, and of a denial.
fn spec_properties_of_verdicts()
    ensures plan_has { IfAllowed (Allowed (record { kind = Command.Flush; first = 0; blocks = 8; bytes = 0 }))
        (λ (p : Plan). p.blocks ≡ 8) }
    ensures plan_lacks { IfAllowed (Allowed (record { kind = Command.Flush; first = 0; blocks = 8; bytes = 0 }))
        (λ (p : Plan). p.blocks ≡ 9) → ⊥ }
    ensures no_plan { IfAllowed (Denied 9 (record { sct = 0; sc = 0x80 })) (λ (p : Plan). p.blocks ≡ 9) }
    ensures denial_has { IfDenied (Denied 9 (record { sct = 0; sc = 0x80 })) (8 ≤ 9) }
    ensures denial_lacks { IfDenied (Denied 9 (record { sct = 0; sc = 0x80 })) (9 ≤ 8) → ⊥ }
    ensures no_denial { IfDenied (Allowed (record { kind = Command.Flush; first = 0; blocks = 8; bytes = 0 })) (9 ≤ 8) }
{}

/// Namespace 2 has 8 blocks, and there is no namespace 3.
fn spec_fitting_plans()
    ensures last { FitsNamespace cluster_world 2 (record { kind = Command.Read; first = 7; blocks = 1; bytes = 512 }) }
    ensures over { FitsNamespace cluster_world 2 (record { kind = Command.Read; first = 7; blocks = 2; bytes = 1024 })
        → ⊥ }
    ensures none { FitsNamespace cluster_world 3 (record { kind = Command.Flush; first = 0; blocks = 0; bytes = 0 })
        → ⊥ }
{}
