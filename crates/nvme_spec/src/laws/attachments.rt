//! Laws of attaching and detaching.

ghost use Rattle.nvme_spec.specs.AttachmentLaws.{AddsTheListed, RemovesTheListed};

/// The controllers of a namespace after a list was attached, or detached.
#[tactic(auto, using(crate::proofs::AttachmentLaws::adds_the_listed, crate::proofs::AttachmentLaws::removes_the_listed))]
fn attachments()
    ensures attached { AddsTheListed }
    ensures detached { RemovesTheListed }
{}
