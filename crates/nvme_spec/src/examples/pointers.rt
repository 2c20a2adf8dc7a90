//! Data pointers with chained page lists, and pages that are named twice.

ghost use Rattle.std.specs.Prelude.{◌≡◌, ◌-◌, [], ◌∷◌, None, Some, length, drop, replicate};
ghost use Rattle.nvme_spec.specs.Pointer.{transfer, pointer_fault, address};
ghost use Rattle.std.specs.List.{range_with_len};
ghost use Rattle.nvme_spec.specs.Transfers.{pieces_of, block_addresses, with_scattered};
ghost use Rattle.nvme_spec.specs.ExampleWindows.{linked, full, doubled, long, whole};
ghost use Rattle.nvme_spec.specs.declared.pointer.DataFault.TheVariants.{Offset, Outside};

/// PRP2 points to the last slot of a page, and two entries follow: that slot has the address of the next list page.
#[tactic(auto, unfolding(crate::specs::Memory::qword, crate::specs::Pointer::fault_of, crate::specs::Pointer::first_fault, crate::specs::Pointer::slot, crate::specs::Pointer::entry_tests, crate::specs::ExampleWindows::linked))]
fn last_slot_links()
    ensures sound { pointer_fault (transfer (linked 12288) 20480 12280 12288) ≡ None }
    ensures parts { pieces_of (transfer (linked 12288) 20480 12280 12288)
        ≡ whole 20480 ∷ whole 24576 ∷ whole 28672 ∷ [] }
    ensures last_byte { address (transfer (linked 12288) 20480 12280 12288) 12287 ≡ 32767 }
    // A list page is a multiple of 4,096.
    ensures link_offset { pointer_fault (transfer (linked 12296) 20480 12280 12288) ≡ Some Offset }
    // It is in the window.
    ensures link_outside { pointer_fault (transfer (linked 4194304) 20480 12280 12288) ≡ Some Outside }
    // PRP1 is tested first, for its offset before its place.
    ensures prp1_offset { pointer_fault (transfer (linked 12296) 20482 12280 12288) ≡ Some Offset }
    ensures prp1_outside { pointer_fault (transfer (linked 12296) 4194304 12280 12288) ≡ Some Outside }
    ensures prp1_both { pointer_fault (transfer (linked 12296) 4194306 12280 12288) ≡ Some Offset }
{}

/// If all entries that follow fit the slots up to the end of the page, the last slot is an entry.
#[tactic(auto, unfolding(crate::specs::Memory::qword, crate::specs::Pointer::fault_of, crate::specs::Pointer::first_fault, crate::specs::Pointer::slot, crate::specs::Pointer::entry_tests, crate::specs::ExampleWindows::full))]
fn last_slot_is_an_entry()
    ensures sound { pointer_fault (transfer full 20480 12272 12288) ≡ None }
    ensures parts { pieces_of (transfer full 20480 12272 12288) ≡ whole 20480 ∷ whole 24576 ∷ whole 28672 ∷ [] }
{}

/// Two entries with the same page give two pieces, and the later bytes are kept there.
#[tactic(auto, unfolding(crate::specs::Memory::qword, crate::specs::Pointer::slot, crate::specs::Transfers::with_scattered, crate::specs::ExampleWindows::doubled))]
fn page_named_twice()
    ensures parts { pieces_of (transfer doubled 20480 12288 12288) ≡ whole 20480 ∷ whole 24576 ∷ whole 24576 ∷ [] }
    ensures later { with_scattered (replicate 4 0) (1 ∷ 2 ∷ 1 ∷ []) (7 ∷ 8 ∷ 9 ∷ []) ≡ 0 ∷ 9 ∷ 8 ∷ 0 ∷ [] }
{}

/// With an offset, the longest transfer touches 33 pages.
#[tactic(auto, unfolding(crate::specs::Memory::qword, crate::specs::Pointer::fault_of, crate::specs::Pointer::first_fault, crate::specs::Pointer::slot, crate::specs::Pointer::entry_tests, crate::specs::ExampleWindows::long))]
fn thirty_three_pages()
    ensures sound { pointer_fault (transfer long 24068 0 131072) ≡ None }
    ensures count { length (pieces_of (transfer long 24068 0 131072)) ≡ 33 }
    ensures last { drop 32 (pieces_of (transfer long 24068 0 131072)) ≡ record { address = 192512; len = 3588 } ∷ [] }
{}

/// Four bytes are left from offset 4,092 of a page; one more page is at PRP2 itself.
#[tactic(auto, unfolding(crate::specs::Pointer::fault_of, crate::specs::Pointer::first_fault))]
fn last_four_bytes_of_a_page()
    ensures sound { pointer_fault (transfer [] 24572 36864 512) ≡ None }
    ensures parts { pieces_of (transfer [] 24572 36864 512)
        ≡ record { address = 24572; len = 4 } ∷ record { address = 36864; len = 508 } ∷ [] }
    // PRP2 as a page is a multiple of 4,096.
    ensures prp2_offset { pointer_fault (transfer [] 24572 36868 512) ≡ Some Offset }
    // It is not used if the bytes fit into the first page.
    ensures prp2_unused { pointer_fault (transfer [] 24572 36868 4) ≡ None }
{}

/// A block may be on two pages; the second block of a page begins 512 bytes after the first.
#[tactic(auto, unfolding(crate::specs::Transfers::addresses))]
fn blocks()
    ensures on_two_pages { pieces_of (transfer [] 24068 24576 512)
        ≡ record { address = 24068; len = 508 } ∷ record { address = 24576; len = 4 } ∷ [] }
    ensures second { block_addresses (pieces_of (transfer [] 20480 0 1024)) 1 ≡ range_with_len 20992 512 }
{}
