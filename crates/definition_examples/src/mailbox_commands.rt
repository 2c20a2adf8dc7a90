//! Commands of requests as their rules read them, and the executions of admin requests.

ghost use Rattle.std.specs.Prelude.{[], ◌∷◌, ◌≡◌, ℕ, Option, true, false, None, Some, Ok, Err};
ghost use Rattle.nvme_spec.specs.declared.command.AdminCommand.{AdminCommand};
ghost use Rattle.nvme_spec.specs.declared.verdict.Denial.{Denial};
ghost use Rattle.nvme_spec.specs.declared.command.AdminCommand.TheVariants.{Identify};
ghost use Rattle.nvme_spec.specs.Statuses.{invalid_command_opcode};
ghost use Rattle.nvme_driver.specs.Requests.{Asked};
ghost use Rattle.nvme_mailbox.specs.Executions.{
  Site,
  command_fields,
  queue_pairs,
  admin_served,
  admin_request_execution_by,
  denied_request_execution,
};

/// A command's identifier, data pointer and last double words are 0 for its rules.
fn mailbox_command_fields()
    ensures cid { (a : Asked) → (command_fields a).cid ≡ 0 }
    ensures prp1 { (a : Asked) → (command_fields a).prp1 ≡ 0 }
    ensures prp2 { (a : Asked) → (command_fields a).prp2 ≡ 0 }
    ensures cdw13 { (a : Asked) → (command_fields a).cdw13 ≡ 0 }
    ensures cdw14 { (a : Asked) → (command_fields a).cdw14 ≡ 0 }
    ensures cdw15 { (a : Asked) → (command_fields a).cdw15 ≡ 0 }
    ensures nsid { (a : Asked) → (command_fields a).nsid ≡ a.command.nsid }
{}

/// A driver that is up has two queue pairs, each submission queue with the completion queue of its identifier.
fn mailbox_queue_pairs()
    ensures completion { queue_pairs.cq ≡ true ∷ true ∷ false ∷ false ∷ false ∷ [] }
    ensures submission { queue_pairs.sq ≡ Some 0 ∷ Some 1 ∷ None ∷ None ∷ None ∷ [] }
{}

/// An admin request is denied by a rule, by rule 2 if no command has its opcode, or served.
fn mailbox_admin_executions()
    ensures denied { (d : Denial) → (command : Option AdminCommand) → (s : Site) → (k : ℕ) → (a : Asked)
        → admin_request_execution_by (Err d) command s k a ≡ denied_request_execution s d.rule d.status }
    ensures unknown { (s : Site) → (k : ℕ) → (a : Asked) → admin_request_execution_by (Ok tt) None s k a
        ≡ denied_request_execution s 2 invalid_command_opcode }
    ensures served { (s : Site) → (k : ℕ) → (a : Asked) → admin_request_execution_by (Ok tt) (Some Identify) s k a
        ≡ admin_served s k a Identify }
    ensures rule { (s : Site) → (k : ℕ) → (a : Asked) → (admin_served s k a Identify).outcome.rule ≡ 0 }
{}
