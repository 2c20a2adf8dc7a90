//! Effects of admin commands of a cluster.

ghost use Rattle.std.specs.Prelude.{
  ◌≡◌,
  ◌++◌,
  [],
  ◌∷◌,
  filter,
  not,
  ◌&&◌,
  ◌==◌,
  replicate,
  take,
  slice_range,
  length,
  true,
  false,
};
ghost use Rattle.nvme_spec.specs.Entries.{command_entry};
ghost use Rattle.nvme_spec.specs.ExistingQueues.{only_admin_queues, after_change};
ghost use Rattle.nvme_spec.specs.World.{with_protection, is_attached};
ghost use Rattle.nvme_spec.specs.Attachments.{without_attached, with_attached};
ghost use Rattle.nvme_spec.specs.AdminEffects.{admin_execution, double_word_0, data_out};
ghost use Rattle.nvme_spec.specs.AdminExamples.{cluster_world, one_completion_queue, one_queue_pair, listing};
ghost use Rattle.nvme_spec.specs.Statuses as status;

use crate::access::Protection;
use crate::command::AdminCommand;
use crate::queues::QueueChange;

/// Queues are created and deleted.
fn queue_changes()
    ensures completion { (admin_execution cluster_world only_admin_queues 1
        (command_entry 5 0 0x3000 0x001f0001 1) []).change
        ≡ QueueChange.MakeCq 1 32 0x3000 }
    ensures submission { (admin_execution cluster_world one_completion_queue 1
        (command_entry 1 0 0x2000 0x00070001 0x00010001)
        []).change ≡ QueueChange.MakeSq 1 8 0x2000 1 }
    ensures one_queue { after_change only_admin_queues (QueueChange.MakeCq 1 32 0x3000) ≡ one_completion_queue }
    ensures a_pair { after_change one_completion_queue (QueueChange.MakeSq 1 8 0x2000 1) ≡ one_queue_pair }
    ensures deleted { (admin_execution cluster_world one_queue_pair 1 (command_entry 0 0 0 1 0) []).change
        ≡ QueueChange.DropSq 1 }
    ensures one_left { after_change one_queue_pair (QueueChange.DropSq 1) ≡ one_completion_queue }
    ensures both_deleted { (admin_execution cluster_world one_completion_queue 1 (command_entry 4 0 0 1 0) []).change
        ≡ QueueChange.DropCq 1 }
    ensures none_left { after_change one_completion_queue (QueueChange.DropCq 1) ≡ only_admin_queues }
    ensures refused { (admin_execution cluster_world one_queue_pair 1 (command_entry 4 0 0 1 0) []).change
        ≡ QueueChange.Keep }
    ensures why { (admin_execution cluster_world one_queue_pair 1 (command_entry 4 0 0 1 0) []).rule ≡ 6 }
    ensures world { (admin_execution cluster_world only_admin_queues 1 (command_entry 5 0 0x3000 0x001f0001 1) []).world
        ≡ cluster_world }
{}

/// Namespace 1 is write protected by one controller, and another one sees it.
fn protection()
    ensures protected { (admin_execution cluster_world one_queue_pair 1 (command_entry 9 1 0 0x84 1) []).world
        ≡ with_protection cluster_world 1 Protection.Protected }
    ensures done { (admin_execution cluster_world one_queue_pair 1 (command_entry 9 1 0 0x84 1) []).status
        ≡ status.successful_completion }
    ensures seen { (admin_execution (with_protection cluster_world 1 Protection.Protected) one_queue_pair 2
        (command_entry 10 1 0 0x84 0) []).dw0
        ≡ 1 }
    ensures unprotected { (admin_execution (with_protection cluster_world 1 Protection.Protected) one_queue_pair 1
        (command_entry 9 1 0 0x84 0) []).world
        ≡ cluster_world }
    ensures until_cycle { (admin_execution cluster_world one_queue_pair 1 (command_entry 9 1 0 0x84 2) []).world
        ≡ with_protection cluster_world 1 Protection.UntilCycle }
    ensures until_cycle_seen { (admin_execution (with_protection cluster_world 1 Protection.UntilCycle) one_queue_pair 2
        (command_entry 10 1 0 0x84 0) []).dw0
        ≡ 2 }
    ensures until_cycle_stays { (admin_execution (with_protection cluster_world 1 Protection.UntilCycle)
        one_queue_pair 1 (command_entry 9 1 0 0x84 0) []).world
        ≡ with_protection cluster_world 1 Protection.UntilCycle }
    ensures not_seen { (admin_execution cluster_world one_queue_pair 2 (command_entry 10 1 0 0x84 0) []).dw0 ≡ 0 }
{}

/// The number of queues, and the host's identifier.
fn features()
    ensures requested { (admin_execution cluster_world only_admin_queues 1 (command_entry 9 0 0 0x07 0x00070007) []).dw0
        ≡ 0x00030003 }
    ensures counted { (admin_execution cluster_world one_queue_pair 1 (command_entry 10 0 0 0x07 0) []).dw0
        ≡ 0x00030003 }
    ensures refused { (admin_execution cluster_world one_queue_pair 1 (command_entry 9 0 0 0x07 0x00070007) []).dw0
        ≡ 0 }
    ensures host { (admin_execution cluster_world only_admin_queues 2 (command_entry 10 0 4 0x81 1)
        (replicate 24 7)).window
        ≡ replicate 4 7 ++ 0xb2 ∷ replicate 15 0 ++ replicate 4 7 }
    ensures no_word { (admin_execution cluster_world only_admin_queues 2 (command_entry 10 0 4 0x81 1)
        (replicate 24 7)).dw0 ≡ 0 }
{}

/// Structures of Identify.
fn structures()
    ensures namespaces { take 16 (data_out cluster_world 1 AdminCommand.Identify (command_entry 6 0 0 2 0))
        ≡ 1 ∷ 0 ∷ 0 ∷ 0 ∷ 2 ∷ replicate 11 0 }
    ensures unattached { data_out cluster_world 2 AdminCommand.Identify (command_entry 6 2 0 0 0) ≡ replicate 4096 0 }
    ensures controller { slice_range (data_out cluster_world 3 AdminCommand.Identify (command_entry 6 0 0 1 0)) 76 80
        ≡ 2 ∷ 5 ∷ 3 ∷ 0 ∷ [] }
    ensures namespace { take 8 (data_out cluster_world 3 AdminCommand.Identify (command_entry 6 1 0 0 0))
        ≡ 64 ∷ replicate 7 0 }
{}

/// Controller 2 is detached from the shared namespace, and attached again.
fn attachments()
    ensures detached { (admin_execution cluster_world one_queue_pair 2 (command_entry 0x15 1 0 1 0)
        (listing (2 ∷ []))).world
        ≡ without_attached cluster_world 1 (2 ∷ []) }
    ensures no_more { is_attached (without_attached cluster_world 1 (2 ∷ [])) 2 1 ≡ false }
    ensures others { is_attached (without_attached cluster_world 1 (2 ∷ [])) 3 1 ≡ true }
    ensures again { (admin_execution (without_attached cluster_world 1 (2
        ∷ [])) one_queue_pair 2 (command_entry 0x15 1 0 1 0) (listing (2 ∷ []))).status
        ≡ status.namespace_not_attached }
    ensures rule { (admin_execution (without_attached cluster_world 1 (2
        ∷ [])) one_queue_pair 2 (command_entry 0x15 1 0 1 0) (listing (2 ∷ []))).rule ≡ 11 }
    ensures attached { is_attached (admin_execution (without_attached cluster_world 1 (2
        ∷ [])) one_queue_pair 2 (command_entry 0x15 1 0 0 0) (listing (2 ∷ []))).world 2 1 ≡ true }
    ensures refused { (admin_execution cluster_world one_queue_pair 1 (command_entry 0x15 2 0 0 0)
        (listing (2 ∷ []))).world
        ≡ cluster_world }
{}
