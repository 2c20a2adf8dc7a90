//! Admin commands that the rules before those on data have let pass.

ghost use Rattle.std.specs.Prelude.{◌==◌, ◌≡◌, ℕ, List, true, length, IsSome};
ghost use Rattle.nvme_wire.specs.Submission.{nsid};
ghost use Rattle.nvme_spec.specs.declared.command.AdminCommand.TheVariants.{SetFeatures, NamespaceAttachment};
ghost use Rattle.nvme_spec.specs.AdminCommands.{data_length, fid, write_protection};
ghost use Rattle.nvme_spec.specs.World.{World, namespace_of};
ghost use Rattle.nvme_admin.specs.declared.rules.Admitted.{Admitted};
ghost use Rattle.nvme_admin.specs.Admitted.{IsAdmitted, HasPlaces};

/// Their namespace is configured, and each byte of their data has one address.
fn core_admitted_commands()
    ensures protects { (w : World) → (e : List ℕ) → (a : Admitted) → IsAdmitted w e a → a.command ≡ SetFeatures
        → (fid e == write_protection) ≡ true → IsSome (namespace_of w (nsid e)) }
    ensures attaches { (w : World) → (e : List ℕ) → (a : Admitted) → IsAdmitted w e a → a.command
        ≡ NamespaceAttachment → IsSome (namespace_of w (nsid e)) }
    ensures size { (window e : List ℕ) → (a : Admitted) → (places : List ℕ) → HasPlaces window e a places
        → length places ≡ data_length a.command e }
{}
