//! Which inputs of a target end a connection, and which of its causes name a host.

ghost use Rattle.std.specs.Prelude.{ℕ, List, Bool};
ghost use Rattle.nvme_wire.specs.declared.status.Status.{Status};
ghost use Rattle.nvme_fabrics.specs.declared.session.Judged.{Judged};
ghost use Rattle.nvme_fabrics.specs.Runs.{Input, Connects, Authenticates, Executes, Closes, Ends};
ghost use Rattle.nvme_target.specs.Causes.{MayEnd, NamesHost, Accessing, LosingPower};

/// A connection ends by its own Fabrics command, or when it is closed.
fn core_ending_inputs()
    ensures connect { (e d : List ℕ) → (j : Judged) → MayEnd 7 (Connects 7 e d j) → ⊥ }
    ensures authenticated { (is_enabled : Bool) → (created : Status) → MayEnd 7 (Authenticates 7 is_enabled created)
        → ⊥ }
    ensures command { (e : List ℕ) → MayEnd 7 (Executes 7 e) }
    ensures other_command { (e : List ℕ) → MayEnd 7 (Executes 8 e) → ⊥ }
    ensures closed { MayEnd 7 (Closes 7) }
    ensures other_closed { MayEnd 7 (Closes 8) → ⊥ }
    ensures association { MayEnd 7 (Ends 7) → ⊥ }
{}

/// No host is named if the target accesses a register, or if power is lost.
fn core_nameless_causes()
    ensures access { (has_keys : Bool) → (inputs : List Input) → (host : ℕ)
        → NamesHost has_keys inputs (Accessing 1) host → ⊥ }
    ensures power { (has_keys : Bool) → (inputs : List Input) → (host : ℕ)
        → NamesHost has_keys inputs LosingPower host → ⊥ }
{}
