//! Worked examples of the definitions. Each is the contract of an empty function, proved by computing.
#![tactic(auto, unfolding(crate::specs::Refusals::refusal_of))]

ghost use Rattle.std.specs.Prelude.{◌≡◌, ◌+◌, ℕ, [], ◌∷◌, None, Some, map, true};
ghost use Rattle.std.specs.List.{range_with_len};
ghost use Rattle.nvme_spec.specs.Configuration.{capacity, script_capacity};
ghost use Rattle.nvme_spec.specs.Examples.{cluster, controller, namespace, single};
ghost use Rattle.nvme_ns.specs.Refusals.{reason_at, refusal_of};

use crate::refusal::{BrokenRule, SetupLine};

/// If there are too many lines, the first one above a limit is reported: controllers, then namespaces, attachments.
fn lines_too_many()
    ensures controllers { refusal_of
        (record single { controllers = map (λ (k : ℕ). controller (k + 1) 0xa1) (range_with_len 0 18) })
        (script_capacity 64)
        ≡ reason_at (SetupLine.Controller 16) (Some BrokenRule.TooManyControllers) }
    ensures namespaces { refusal_of
        (record single { namespaces = map (λ (k : ℕ). namespace (k + 1) 1 true) (range_with_len 0 9) })
        (script_capacity 64)
        ≡ reason_at (SetupLine.Namespace 8) (Some BrokenRule.TooManyNamespaces) }
    ensures attachments { refusal_of
        (record single { attached = map (λ (k : ℕ). (k, 1)) (range_with_len 0 129) }) (script_capacity 64)
        ≡ reason_at (SetupLine.Attached 128) (Some BrokenRule.TooManyAttachments) }
{}

/// Controllers: the first line that breaks a rule is reported. In each line the number is checked before the host.
fn controllers()
    ensures gap { refusal_of (record single { controllers = controller 1 0xa1 ∷ controller 3 0xa1 ∷ [] })
        (script_capacity 64)
        ≡ reason_at (SetupLine.Controller 1) (Some (BrokenRule.Misnumbered 2 3)) }
    ensures no_host { refusal_of (record single { controllers = controller 1 0xa1 ∷ controller 2 0 ∷ [] })
        (script_capacity 64)
        ≡ reason_at (SetupLine.Controller 1) (Some (BrokenRule.NoHost 2)) }
    ensures first { refusal_of (record single { controllers = controller 1 0 ∷ controller 3 0xa1 ∷ [] })
        (script_capacity 64)
        ≡ reason_at (SetupLine.Controller 0) (Some (BrokenRule.NoHost 1)) }
    ensures number { refusal_of (record single { controllers = controller 2 0 ∷ [] }) (script_capacity 64)
        ≡ reason_at (SetupLine.Controller 0) (Some (BrokenRule.Misnumbered 1 2)) }
{}

/// Identifiers of namespaces: if one is repeated, the reason names the later one; a controller's fault precedes both.
fn namespaces()
    ensures foreign { refusal_of (record single { namespaces = namespace 1 8 true ∷ namespace 9 8 true ∷ [] })
        (script_capacity 64)
        ≡ reason_at (SetupLine.Namespace 1) (Some (BrokenRule.ForeignNsid 9)) }
    ensures zero { refusal_of (record single { namespaces = namespace 0 8 true ∷ [] }) (script_capacity 64)
        ≡ reason_at (SetupLine.Namespace 0) (Some (BrokenRule.ForeignNsid 0)) }
    ensures twice { refusal_of
        (record single { namespaces = namespace 2 8 true ∷ namespace 1 8 true ∷ namespace 2 8 true ∷ [] })
        (script_capacity 64)
        ≡ reason_at (SetupLine.Namespace 2) (Some (BrokenRule.RepeatedNsid 2)) }
    ensures behind_controllers { refusal_of
        (record single { controllers = controller 1 0 ∷ []; namespaces = namespace 9 8 true ∷ [] }) (script_capacity 64)
        ≡ reason_at (SetupLine.Controller 0) (Some (BrokenRule.NoHost 1)) }
{}

/// Attachments.
fn attachments()
    ensures controller { refusal_of (record single { attached = (1, 1) ∷ (2, 1) ∷ [] }) (script_capacity 64)
        ≡ reason_at (SetupLine.Attached 1) (Some (BrokenRule.UnknownController 2)) }
    ensures namespace { refusal_of (record single { attached = (1, 2) ∷ [] }) (script_capacity 64)
        ≡ reason_at (SetupLine.Attached 0) (Some (BrokenRule.UnknownNamespace 2)) }
    ensures twice { refusal_of (record single { attached = (1, 1) ∷ (1, 1) ∷ [] }) (script_capacity 64)
        ≡ reason_at (SetupLine.Attached 1) (Some (BrokenRule.RepeatedAttachment 1 1)) }
    ensures private { refusal_of (record cluster { attached = (1, 2) ∷ (2, 1) ∷ (2, 2) ∷ [] }) (script_capacity 72)
        ≡ reason_at (SetupLine.Attached 2) (Some (BrokenRule.NotShared 2 2)) }
{}

/// Sizes of namespaces, and their places on the medium.
fn sizes_and_places()
    ensures no_blocks { refusal_of (record single { namespaces = namespace 1 8 true ∷ namespace 2 0 true ∷ [] })
        (script_capacity 64)
        ≡ reason_at (SetupLine.Namespace 1) (Some (BrokenRule.NoBlocks 2)) }
    ensures too_large { refusal_of (record single { namespaces = namespace 1 65536 true ∷ namespace 3 70000 true ∷ [] })
        (script_capacity 64)
        ≡ reason_at (SetupLine.Namespace 1) (Some (BrokenRule.TooLarge 3 70000 65536)) }
    ensures within { refusal_of (record single { namespaces = namespace 1 70000 true ∷ [] })
        (capacity 70000 70000) ≡ None }
    ensures above { refusal_of (record single { namespaces = namespace 1 70000 true ∷ [] }) (capacity 69999 70000)
        ≡ reason_at (SetupLine.Namespace 0) (Some (BrokenRule.TooLarge 1 70000 69999)) }
    ensures second { refusal_of cluster (script_capacity 71)
        ≡ reason_at (SetupLine.Namespace 1) (Some (BrokenRule.DoesNotFit 2 71)) }
    ensures first { refusal_of cluster (script_capacity 63)
        ≡ reason_at (SetupLine.Namespace 0) (Some (BrokenRule.DoesNotFit 1 63)) }
{}

/// A configuration that follows all rules is accepted.
fn nothing_broken()
    ensures { refusal_of cluster (script_capacity 72) ≡ None }
{}

/// If several rules are broken, the first one is reported: counts, then identifiers, sizes, and space on the medium.
fn several_faults()
    ensures count { refusal_of
        (record single { controllers = map (λ (k : ℕ). controller (k + 2) 0) (range_with_len 0 17) })
        (script_capacity 64)
        ≡ reason_at (SetupLine.Controller 16) (Some BrokenRule.TooManyControllers) }
    ensures identifier { refusal_of (record single { namespaces = namespace 9 0 true ∷ [] }) (script_capacity 64)
        ≡ reason_at (SetupLine.Namespace 0) (Some (BrokenRule.ForeignNsid 9)) }
    ensures size { refusal_of (record single { namespaces = namespace 1 65537 true ∷ [] }) (script_capacity 0)
        ≡ reason_at (SetupLine.Namespace 0) (Some (BrokenRule.TooLarge 1 65537 65536)) }
{}
