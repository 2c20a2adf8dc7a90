//! Worked examples of the definitions, proved by computing.
#![tactic(auto, unfolding(crate::specs::Buffers::prp_list, crate::specs::Buffers::HasListAt, crate::specs::Entries::moved, crate::specs::Entries::with_entries, crate::specs::Entries::is_filled, crate::specs::Examples::counting, nvme_wire::specs::Submission::submission_entry, nvme_wire::specs::Submission::opcode, nvme_wire::specs::Submission::cdw10, nvme_wire::specs::Submission::cdw12, nvme_spec::specs::Commands::command_of, nvme_spec::specs::Commands::block_count, nvme_spec::specs::Commands::report_length, nvme_spec::specs::AdminCommands::command_of, nvme_spec::specs::AdminCommands::fid))]

ghost use Rattle.std.specs.Prelude.{◌≡◌, true, false, [], ◌∷◌, length, take, drop, replicate};
ghost use Rattle.nvme_data_buffers.specs.Areas.{AreApart, Buffer, Commands, Completions, LiesIn, Listing, extent};
ghost use Rattle.nvme_data_buffers.specs.Buffers.{HasListAt, capacity, end_of, nowhere, prp_list, prps, start};
ghost use Rattle.nvme_data_buffers.specs.Entries.{is_filled, moved, with_entries};
ghost use Rattle.nvme_data_buffers.specs.Examples.{command, counting, entries};
ghost use Rattle.nvme_data_buffers.specs.Laws.{IsWithin};
ghost use Rattle.nvme_data_buffers.specs.Queues.{completion_queue, submission_queue};
ghost use Rattle.nvme_data_buffers.specs.declared.buffer.DataBuffer.TheVariants.{AtOnce, Held};

/// The places of data.
fn places()
    ensures block { start AtOnce 512 ≡ 4193792 }
    ensures page { start AtOnce 4096 ≡ 4190208 }
    ensures rounded { start AtOnce 4097 ≡ 4190204 }
    ensures two_pages { start AtOnce 8192 ≡ 4186112 }
    ensures longest { start AtOnce 131072 ≡ 4063232 }
    ensures longer { start AtOnce 131073 ≡ nowhere }
    ensures none { start AtOnce 0 ≡ 4194304 }
    ensures first_held { start (Held 0) 512 ≡ 4062720 }
    ensures before_it { end_of (Held 1) ≡ start (Held 0) 8192 }
    ensures last_held { start (Held 15) 8192 ≡ 3932160 }
    ensures too_long { start (Held 0) 8193 ≡ nowhere }
    ensures no_buffer { capacity (Held 16) ≡ 0 }
    ensures no_place { start (Held 16) 1 ≡ nowhere }
{}

/// The PRP entries of commands.
fn pointers()
    ensures block { prps AtOnce 512 512 ≡ entries 4193792 nowhere }
    ensures page { prps AtOnce 4096 4096 ≡ entries 4190208 nowhere }
    ensures two_pages { prps AtOnce 8192 8192 ≡ entries 4186112 4190208 }
    ensures odd { prps AtOnce 4097 4097 ≡ entries 4190204 4190208 }
    ensures three_pages { prps AtOnce 8196 8196 ≡ entries 4186108 65768 }
    ensures longest { prps AtOnce 131072 131072 ≡ entries 4063232 65536 }
    ensures held { prps (Held 3) 8192 8192 ≡ entries 4030464 4034560 }
    ensures fewer { prps AtOnce 131072 512 ≡ entries 4063232 nowhere }
    ensures two_of_many { prps AtOnce 131072 8192 ≡ entries 4063232 4067328 }
    ensures more_than_two { prps AtOnce 8192 12288 ≡ entries nowhere nowhere }
    ensures one_byte_more { prps AtOnce 4095 4096 ≡ entries nowhere nowhere }
    ensures no_data { prps AtOnce 0 512 ≡ entries nowhere nowhere }
    ensures too_long { prps (Held 0) 12288 512 ≡ entries nowhere nowhere }
{}

/// The PRP list.
fn lists()
    ensures size { length prp_list ≡ 248 }
    ensures first { take 8 prp_list ≡ 0 ∷ 16 ∷ 62 ∷ 0 ∷ 0 ∷ 0 ∷ 0 ∷ 0 ∷ [] }
    ensures last { drop 240 prp_list ≡ 0 ∷ 240 ∷ 63 ∷ 0 ∷ 0 ∷ 0 ∷ 0 ∷ 0 ∷ [] }
    ensures there { HasListAt prp_list 0 }
    ensures elsewhere { HasListAt prp_list 8 → ⊥ }
    ensures zeros { HasListAt (replicate 248 0) 0 → ⊥ }
{}

/// How many bytes commands move.
fn lengths()
    ensures read { moved false (command 0x02 0 7) ≡ 4096 }
    ensures write { moved false (command 0x01 0 0x10000) ≡ 512 }
    ensures compare { moved false (command 0x05 0 255) ≡ 131072 }
    ensures most { moved false (command 0x02 0 0xffff) ≡ 33554432 }
    ensures flush { moved false (command 0x00 0 7) ≡ 0 }
    ensures zeroes { moved false (command 0x08 0 7) ≡ 0 }
    ensures register { moved false (command 0x0d 0 0) ≡ 16 }
    ensures acquire { moved false (command 0x11 0 0) ≡ 16 }
    ensures release { moved false (command 0x15 0 0) ≡ 8 }
    ensures report { moved false (command 0x0e 1023 0) ≡ 4096 }
    ensures unknown { moved false (command 0x7f 0 0) ≡ 0 }
    ensures identify { moved true (command 0x06 1 0) ≡ 4096 }
    ensures attachment { moved true (command 0x15 0 0) ≡ 4096 }
    ensures host_identifier { moved true (command 0x0a 0x81 0) ≡ 16 }
    ensures selected { moved true (command 0x0a 0x181 0) ≡ 16 }
    ensures other_feature { moved true (command 0x0a 0x07 0) ≡ 0 }
    ensures set_features { moved true (command 0x09 0x81 0) ≡ 0 }
    ensures create_queue { moved true (command 0x01 1 0) ≡ 0 }
{}

/// Reads that fill their data.
fn filled()
    ensures all { is_filled false (command 0x02 0 7) 4096 ≡ true }
    ensures some { is_filled false (command 0x02 0 7) 8192 ≡ false }
    ensures report { is_filled false (command 0x0e 1023 0) 4096 ≡ false }
    ensures log_page { is_filled true (command 0x02 0 7) 0 ≡ false }
{}

/// The bytes of an entry.
fn bytes()
    ensures size { length (with_entries counting (entries 0x0102030405060708 1)) ≡ 64 }
    ensures front { take 4 (with_entries counting (entries 0x0102030405060708 1)) ≡ 0 ∷ 63 ∷ 2 ∷ 3 ∷ [] }
    ensures pointer { take 18 (drop 23 (with_entries counting (entries 0x0102030405060708 1)))
        ≡ 23 ∷ 8 ∷ 7 ∷ 6 ∷ 5 ∷ 4 ∷ 3 ∷ 2 ∷ 1 ∷ 1 ∷ 0 ∷ 0 ∷ 0 ∷ 0 ∷ 0 ∷ 0 ∷ 0 ∷ 40 ∷ [] }
    ensures back { drop 40 (with_entries counting (entries 0 0)) ≡ drop 40 counting }
{}

/// The pages of queues, and areas.
fn areas()
    ensures admin { submission_queue 0 ≡ 4096 }
    ensures last { completion_queue 4 ≡ 40960 }
    ensures others { submission_queue 5 ≡ submission_queue 65535 }
    ensures apart { AreApart (extent (Commands 1)) (extent (Completions 1)) }
    ensures overlap { AreApart (extent (Commands 1)) (extent (Commands 1)) → ⊥ }
    ensures list { AreApart (extent (Completions 5)) (extent Listing) }
    ensures within { LiesIn (extent (Buffer AtOnce)) 4193792 512 }
    ensures beyond { LiesIn (extent (Buffer AtOnce)) 4193792 513 → ⊥ }
    ensures before { LiesIn (extent (Buffer (Held 0))) 4055039 1 → ⊥ }
{}

/// The premise of the laws on data.
fn premises()
    ensures all { IsWithin AtOnce 512 512 }
    ensures fewer { IsWithin (Held 15) 8192 1 }
    ensures none { IsWithin AtOnce 512 0 → ⊥ }
    ensures more { IsWithin AtOnce 512 513 → ⊥ }
    ensures too_long { IsWithin (Held 0) 8193 1 → ⊥ }
    ensures no_buffer { IsWithin (Held 16) 1 1 → ⊥ }
{}
