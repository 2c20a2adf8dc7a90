//! Addresses of data buffers, of their PRP List, and of queues.

ghost use Rattle.std.specs.Prelude.{◌≡◌};
ghost use Rattle.nvme_data_buffers.specs.Buffers.{held_bytes, list_place, first_listed, entry_place};
ghost use Rattle.nvme_data_buffers.specs.Queues.{submission_queue, completion_queue};

/// Buffers of held commands have two pages; the PRP List is in page 16, with 8 bytes for each page.
fn core_buffer_places()
    ensures size { held_bytes ≡ 8192 }
    ensures list { list_place ≡ 0x10000 }
    ensures first_page { first_listed ≡ 0x3e1000 }
    ensures first_entry { entry_place 0x3e1000 ≡ 0x10000 }
    ensures third_entry { entry_place 0x3e3000 ≡ 0x10010 }
{}

/// The pairs of queues are adjacent from page 1 on; identifiers above 4 share the last one.
fn core_queue_pages()
    ensures admin { submission_queue 0 ≡ 0x1000 }
    ensures second { submission_queue 1 ≡ 0x3000 }
    ensures completions { completion_queue 1 ≡ 0x4000 }
    ensures last { submission_queue 5 ≡ 0xb000 }
    ensures shared { submission_queue 9 ≡ 0xb000 }
{}
