//! The limits of the subsystem.

ghost use Rattle.std.specs.Prelude.{◌≡◌};
ghost use Rattle.nvme_spec.specs.Limits as limit;

/// Units, transfers and namespaces. A memory page has 4 KiB, as CC.MPS 0 says.
fn spec_transfer_limits()
    ensures block { limit.block_size ≡ 512 }
    ensures page { limit.memory_page ≡ 4096 }
    ensures blocks { limit.most_blocks ≡ 256 }
    ensures bytes { limit.most_bytes ≡ 131072 }
    ensures namespaces { limit.highest_nsid ≡ 8 }
    ensures namespace { limit.largest_namespace ≡ 65536 }
{}

/// Controllers, attachments and queues. A Controller List has at most 2,047 identifiers.
fn spec_controller_limits()
    ensures controllers { limit.most_controllers ≡ 16 }
    ensures attachments { limit.most_attachments ≡ 128 }
    ensures queues { limit.highest_queue ≡ 4 }
    ensures fewest_entries { limit.fewest_entries ≡ 2 }
    ensures most_entries { limit.most_entries ≡ 64 }
    ensures list { limit.longest_controller_list ≡ 2047 }
{}
