//! A medium of brought blocks: its content, and the answers and effects of its calls.

ghost use Rattle.std.specs.Prelude.{◌≡◌, ◌≤◌, ℕ, List, take, Some, Ok, true, Result};
ghost use Rattle.nvme_spec.specs.Blocks.{block_at};
ghost use Rattle.nvme_spec.specs.Bytes.{with_bytes};
ghost use Rattle.nvme_spec.specs.MediumCalls.{MediumAnswer};
ghost use Rattle.nvme_spec.specs.declared.medium.MediumFault.{MediumFault as Fault};
ghost use Rattle.nvme_brought.specs.Brought.{
  room_bytes,
  bytes_at_hand,
  with_room,
  Fails,
  PutsAt,
  ReadsFrom,
  WritesTo,
  FlushesIf,
};
ghost use Rattle.nvme_brought.specs.declared.medium.BroughtMedium.{BroughtMedium as Medium};
ghost use Rattle.nvme_brought.specs.declared.room.Room.{Room as BlockRoom};

/// Two blocks at hand are 1,024 bytes, and those of a room from block 2 are put there.
fn spec_rooms()
    ensures at_hand { (r : BlockRoom) → r.at_hand ≡ 2 → bytes_at_hand r ≡ take 1024 (room_bytes r) }
    ensures content { (content : List ℕ) → (r : BlockRoom) → r.first ≡ 2
        → with_room content r ≡ with_bytes content 1024 (bytes_at_hand r) }
{}

/// The answers of calls, and the failure count after one that fails.
fn spec_brought_answers()
    ensures failed { (before after : Medium) → Fails before after → before.failures ≡ 3 → 4 ≤ after.failures }
    ensures read { (before after : Medium) → (answer : Result (List ℕ) Fault) → ReadsFrom (Some 1) before answer after
        → answer ≡ Ok (block_at (room_bytes before.room) 1) }
    ensures write { (before after : Medium) → (block : List ℕ) → (answer : MediumAnswer)
        → WritesTo (Some 1) block before answer after → answer ≡ Ok tt }
    ensures flush { (before after : Medium) → (answer : MediumAnswer) → FlushesIf true before answer after
        → answer ≡ Ok tt }
{}

/// A block that is written to the second place of the room.
fn spec_brought_writes()
    ensures bytes { (before after : Medium) → (block : List ℕ) → PutsAt 1 block before after
        → room_bytes after.room ≡ with_bytes (room_bytes before.room) 512 block }
    ensures failures { (before after : Medium) → (block : List ℕ) → PutsAt 1 block before after
        → after.failures ≡ before.failures }
{}
