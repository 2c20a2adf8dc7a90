//! Worked examples of the definitions. Each is the contract of an empty function, proved by computing.

ghost use Rattle.std.specs.Prelude.{◌++◌, [], ◌∷◌, true, replicate, Ok, Err};
ghost use Rattle.nvme_spec.specs.MediumCalls.{Reads};
ghost use Rattle.nvme_spec.specs.declared.medium.MediumFault.{MediumFault as Fault};
ghost use Rattle.nvme_medium.specs.Examples.{logs};
ghost use Rattle.nvme_medium.specs.Reading.{ReadsBlocks};

/// Reads two blocks of the bytes 1 and 2 onto a buffer of the bytes 9. If both reads succeed, the buffer has both
/// blocks. If the second fails, it has the first and then its own bytes. If the first fails, the second is not tried.
fn two_blocks_are_read()
    ensures both { ReadsBlocks logs true (replicate 512 1 ++ replicate 512 2) 0 2 (replicate 1024 9)
        (replicate 512 1 ++ replicate 512 2) [] (Ok tt)
        (Reads 0 (Ok (replicate 512 1)) ∷ Reads 1 (Ok (replicate 512 2)) ∷ []) }
    ensures first { (fault : Fault) → ReadsBlocks logs true (replicate 512 1 ++ replicate 512 2) 0 2 (replicate 1024 9)
        (replicate 512 1 ++ replicate 512 9) [] (Err fault)
        (Reads 0 (Ok (replicate 512 1)) ∷ Reads 1 (Err fault) ∷ []) }
    ensures none { (fault : Fault) → ReadsBlocks logs true (replicate 512 1 ++ replicate 512 2) 0 2 (replicate 1024 9)
        (replicate 1024 9) [] (Err fault) (Reads 0 (Err fault) ∷ []) }
{}
