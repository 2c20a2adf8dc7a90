//! Media of a library: a medium of brought blocks takes a room and gives it back, and one in memory takes none.

ghost use Rattle.std.specs.Prelude.{◌≡◌, ◌*◌, List, ℕ, [], ◌∷◌, length, Ok, Result};
ghost use Rattle.nvme_spec.specs.Blocks.{block_at};
ghost use Rattle.nvme_spec.specs.MediumCalls.{MediumAnswer, Reads, Writes, Flushes};
ghost use Rattle.nvme_spec.specs.declared.medium.MediumFault.{MediumFault as Fault};
ghost use Rattle.nvme_brought.specs.Brought.{content_of, with_room, room_bytes, HasNothing, IsEmpty};
ghost use Rattle.nvme_brought.specs.declared.medium.BroughtMedium.{BroughtMedium as OfBlocks};
ghost use Rattle.nvme_brought.specs.declared.room.Room.{Room as BlockRoom};
ghost use Rattle.nvme_medium.specs.declared.memory.MemMedium.{MemMedium as InOwnMemory};
ghost use Rattle.nvme_lent.specs.declared.lent.LentMedium.{LentMedium as InLentMemory};
ghost use Rattle.nvme_lent.specs.declared.either.OwnOrLent.{OwnOrLent as Medium};
ghost use Rattle.nvme_lent.specs.declared.either.OwnOrLent.TheVariants.{Own, Lent, Brought};
ghost use Rattle.nvme_lent.specs.declared.either.NotBrought.TheVariants.{InMemory, Outside};
ghost use Rattle.nvme_lent.specs.Bringing.{BringsTo, Brings, IsRefused, GivesBack, GivesRoom};
ghost use Rattle.nvme_lent.specs.CallLaws.{IsRead, AreReads};
ghost use Rattle.nvme_lent.specs.Lent.{lent_bytes, lent_step, tail_bytes};
ghost use Rattle.nvme_lent.specs.OwnOrLent.{blocks_of, bytes_of, failures_of};

/// A room is brought to a medium of brought blocks: its blocks are in the content, and the earlier room comes back.
fn spec_brought_rooms()
    ensures room { (room earlier : BlockRoom) → (before after : OfBlocks)
        → Brings room (Brought before) earlier (Brought after)
        → after.room ≡ room }
    ensures earlier { (room earlier : BlockRoom) → (before after : OfBlocks)
        → Brings room (Brought before) earlier (Brought after) → earlier ≡ before.room }
    ensures content { (room earlier : BlockRoom) → (before after : OfBlocks)
        → Brings room (Brought before) earlier (Brought after) → content_of after ≡ with_room (content_of before) room }
    ensures blocks { (room earlier : BlockRoom) → (before after : OfBlocks)
        → Brings room (Brought before) earlier (Brought after) → after.disk.blocks ≡ before.disk.blocks }
    ensures failures { (room earlier : BlockRoom) → (before after : OfBlocks)
        → Brings room (Brought before) earlier (Brought after) → after.failures ≡ before.failures }
    ensures enough { (room earlier : BlockRoom) → (before after : OfBlocks) → BringsTo room before earlier after
        → Brings room (Brought before) earlier (Brought after) }
{}

/// It stays a medium of brought blocks, and no other medium takes a room.
fn spec_media_without_rooms()
    ensures own_after { (room earlier : BlockRoom) → (before : OfBlocks) → (after : InOwnMemory)
        → Brings room (Brought before) earlier (Own after) → ⊥ }
    ensures lent_after { (room earlier : BlockRoom) → (before : OfBlocks) → (after : InLentMemory)
        → Brings room (Brought before) earlier (Lent after) → ⊥ }
    ensures own { (room earlier : BlockRoom) → (before : InOwnMemory) → (after : Medium)
        → Brings room (Own before) earlier after → ⊥ }
    ensures lent { (room earlier : BlockRoom) → (before : InLentMemory) → (after : Medium)
        → Brings room (Lent before) earlier after → ⊥ }
{}

/// Why a room is refused: the medium is in memory, or ends before the last block of the room.
fn spec_refused_rooms()
    ensures own { (room : BlockRoom) → (before : InOwnMemory) → IsRefused room (Own before) (InMemory room) }
    ensures own_outside { (room : BlockRoom) → (before : InOwnMemory) → IsRefused room (Own before) (Outside room) → ⊥ }
    ensures lent { (room : BlockRoom) → (before : InLentMemory) → IsRefused room (Lent before) (InMemory room) }
    ensures lent_outside { (room : BlockRoom) → (before : InLentMemory)
        → IsRefused room (Lent before) (Outside room) → ⊥ }
    ensures over { (room : BlockRoom) → (before : OfBlocks) → before.disk.blocks ≡ 8 → room.first ≡ 7 → room.at_hand ≡ 2
        → IsRefused room (Brought before) (Outside room) }
    ensures last { (room : BlockRoom) → (before : OfBlocks) → before.disk.blocks ≡ 8 → room.first ≡ 7 → room.at_hand ≡ 1
        → IsRefused room (Brought before) (Outside room) → ⊥ }
    ensures not_in_memory { (room : BlockRoom) → (before : OfBlocks)
        → IsRefused room (Brought before) (InMemory room) → ⊥ }
{}

/// A medium of brought blocks gives its room back, and keeps its content.
fn spec_returned_rooms()
    ensures room { (room : BlockRoom) → (before after : OfBlocks) → GivesRoom (Brought before) room (Brought after)
        → room ≡ before.room }
    ensures nothing { (room : BlockRoom) → (before after : OfBlocks) → GivesRoom (Brought before) room (Brought after)
        → HasNothing after }
    ensures content { (room : BlockRoom) → (before after : OfBlocks) → GivesRoom (Brought before) room (Brought after)
        → content_of after ≡ content_of before }
    ensures blocks { (room : BlockRoom) → (before after : OfBlocks) → GivesRoom (Brought before) room (Brought after)
        → after.disk.blocks ≡ before.disk.blocks }
    ensures failures { (room : BlockRoom) → (before after : OfBlocks) → GivesRoom (Brought before) room (Brought after)
        → after.failures ≡ before.failures }
    ensures enough { (room : BlockRoom) → (before after : OfBlocks) → GivesBack before room after
        → GivesRoom (Brought before) room (Brought after) }
{}

/// Other media give an empty room, and stay as they are.
fn spec_empty_rooms()
    ensures own_after { (room : BlockRoom) → (before : OfBlocks) → (after : InOwnMemory)
        → GivesRoom (Brought before) room (Own after) → ⊥ }
    ensures lent_after { (room : BlockRoom) → (before : OfBlocks) → (after : InLentMemory)
        → GivesRoom (Brought before) room (Lent after) → ⊥ }
    ensures own { (room : BlockRoom) → (m : InOwnMemory) → IsEmpty room → GivesRoom (Own m) room (Own m) }
    ensures own_stays { (room : BlockRoom) → (m : InOwnMemory) → (after : Medium) → GivesRoom (Own m) room after
        → after ≡ Own m }
    ensures own_empty { (room : BlockRoom) → (m : InOwnMemory) → (after : Medium) → GivesRoom (Own m) room after
        → room_bytes room ≡ [] }
    ensures lent { (room : BlockRoom) → (m : InLentMemory) → IsEmpty room → GivesRoom (Lent m) room (Lent m) }
    ensures lent_stays { (room : BlockRoom) → (m : InLentMemory) → (after : Medium) → GivesRoom (Lent m) room after
        → after ≡ Lent m }
    ensures lent_empty { (room : BlockRoom) → (m : InLentMemory) → (after : Medium) → GivesRoom (Lent m) room after
        → room_bytes room ≡ [] }
{}

/// Calls that are reads.
fn spec_reads()
    ensures read { IsRead (Reads 7 (Ok [])) }
    ensures write { IsRead (Writes 7 [] (Ok tt)) → ⊥ }
    ensures flush { IsRead (Flushes (Ok tt)) → ⊥ }
    ensures nothing { AreReads [] }
    ensures first { AreReads (Flushes (Ok tt) ∷ []) → ⊥ }
    ensures second { AreReads (Reads 7 (Ok []) ∷ Flushes (Ok tt) ∷ []) → ⊥ }
{}

/// Calls over borrowed bytes succeed.
fn spec_calls_over_lent_bytes()
    ensures read { (before after : InLentMemory) → (answer : Result (List ℕ) Fault)
        → lent_step before (Reads 1 answer) after
        → answer ≡ Ok (block_at (lent_bytes before) 1) }
    ensures flush { (before after : InLentMemory) → (answer : MediumAnswer) → lent_step before (Flushes answer) after
        → answer ≡ Ok tt }
    ensures write { (before after : InLentMemory) → (block : List ℕ) → (answer : MediumAnswer)
        → lent_step before (Writes 1 block answer) after → answer ≡ Ok tt }
    ensures tail { (before after : InLentMemory) → (block : List ℕ) → (answer : MediumAnswer)
        → lent_step before (Writes 1 block answer) after → tail_bytes after ≡ tail_bytes before }
    ensures blocks { (before after : InLentMemory) → (block : List ℕ) → (answer : MediumAnswer)
        → lent_step before (Writes 1 block answer) after → after.blocks ≡ before.blocks }
{}

/// No call fails in memory, and a medium there has whole blocks.
fn spec_blocks_in_memory()
    ensures own_failures { (m : InOwnMemory) → failures_of (Own m) ≡ 0 }
    ensures lent_failures { (m : InLentMemory) → failures_of (Lent m) ≡ 0 }
    ensures lent_blocks { (m : InLentMemory) → blocks_of (Lent m) ≡ m.blocks }
    ensures own_whole { (m : InOwnMemory) → length (bytes_of (Own m)) ≡ 512 * m.blocks }
    ensures lent_whole { (m : InLentMemory) → length (bytes_of (Lent m)) ≡ 512 * m.blocks }
{}
