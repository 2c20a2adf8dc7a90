//! Checks a configuration.

ghost use Rattle.std.specs.Prelude.{◌≡◌, ◌<◌, ◌≤◌, ◌^◌, None, Some, OnOk, IfErr, true, false};
ghost use Rattle.nvme_spec.specs.Configuration as spec;
ghost use Rattle.nvme_ns.specs.Configured.{configuration};

use crate::refusal::refusal_of;
use nvme_spec::{Config, ConfigFault};

/// Returns the first fault of a configuration over a medium of `medium_blocks` blocks, when a namespace may have at
/// most `max_blocks` blocks.
pub fn check(config: &Config, max_blocks: u64, medium_blocks: u64) -> Result<(), ConfigFault>
    ensures passed { OnOk result
        (spec.config_fault (configuration config.now) (spec.capacity max_blocks medium_blocks) ≡ None) }
    ensures numbered { OnOk result (spec.are_numbered config.now.controllers.items ≡ true) }
    ensures known { OnOk result (spec.has_foreign_nsid config.now.namespaces.items ≡ false) }
    ensures attached { OnOk result
        (spec.has_bad_attachment (configuration config.now) config.now.attached.items ≡ false) }
    ensures counts { OnOk result (spec.has_too_many (configuration config.now) ≡ false) }
    ensures total { OnOk result (spec.total_blocks config.now.namespaces.items < 2 ^ 64) }
    ensures fits { OnOk result (spec.total_blocks config.now.namespaces.items ≤ medium_blocks) }
    ensures fault { IfErr result
        (λ fault. spec.config_fault (configuration config.now) (spec.capacity max_blocks medium_blocks) ≡ Some fault) }
{
    match refusal_of(config, max_blocks, medium_blocks) {
        Some(reason) => Err(reason.rule.fault()),
        None => Ok(()),
    }
}
