//! Example runs of theorems about both layers of a fleet.

ghost use Rattle.nvme_session_runs.specs.BothLayers.{LayersAtWork, LayersOfAnyHost};

/// Events of a fleet are events of its subsystem. Those of a fenced host write nothing, those of the holder do.
#[tactic(auto, using(crate::proofs::LayerRuns::layers_at_work, crate::proofs::LayerRuns::layers_need_the_host))]
fn events_are_of_the_subsystem()
    ensures at_work { LayersAtWork }
    ensures host { LayersOfAnyHost → ⊥ }
{}
