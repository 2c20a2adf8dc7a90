//! Names of statuses by their type and code (NVM Express Base Specification 2.0, Status Field Definition).
#![tactic(auto, unfolding(nvme_wire::specs::StatusNames::generic_name, nvme_wire::specs::StatusNames::specific_name, nvme_wire::specs::StatusNames::media_name))]

ghost use Rattle.std.specs.Prelude.{◌≡◌, codes};
ghost use Rattle.nvme_wire.specs.StatusNames.{IsNamed, name_of};

/// Generic command statuses.
fn wire_generic_statuses_example()
    ensures success { name_of (record { sct = 0; sc = 0x00 }) ≡ codes "Successful Completion" }
    ensures opcode { name_of (record { sct = 0; sc = 0x01 }) ≡ codes "Invalid Command Opcode" }
    ensures field { name_of (record { sct = 0; sc = 0x02 }) ≡ codes "Invalid Field in Command" }
    ensures transfer { name_of (record { sct = 0; sc = 0x04 }) ≡ codes "Data Transfer Error" }
    ensures namespace { name_of (record { sct = 0; sc = 0x0b }) ≡ codes "Invalid Namespace or Format" }
    ensures sequence { name_of (record { sct = 0; sc = 0x0c }) ≡ codes "Command Sequence Error" }
    ensures offset { name_of (record { sct = 0; sc = 0x13 }) ≡ codes "PRP Offset Invalid" }
    ensures format { name_of (record { sct = 0; sc = 0x18 }) ≡ codes "Host Identifier Inconsistent Format" }
    ensures preempted { name_of (record { sct = 0; sc = 0x1b }) ≡ codes "Command Aborted due to Preempt and Abort" }
    ensures protected { name_of (record { sct = 0; sc = 0x20 }) ≡ codes "Namespace is Write Protected" }
    ensures range { name_of (record { sct = 0; sc = 0x80 }) ≡ codes "LBA Out of Range" }
    ensures reserved { name_of (record { sct = 0; sc = 0x83 }) ≡ codes "Reservation Conflict" }
{}

/// Command specific statuses.
fn wire_specific_statuses_example()
    ensures no_queue { name_of (record { sct = 1; sc = 0x00 }) ≡ codes "Completion Queue Invalid" }
    ensures identifier { name_of (record { sct = 1; sc = 0x01 }) ≡ codes "Invalid Queue Identifier" }
    ensures size { name_of (record { sct = 1; sc = 0x02 }) ≡ codes "Invalid Queue Size" }
    ensures deletion { name_of (record { sct = 1; sc = 0x0c }) ≡ codes "Invalid Queue Deletion" }
    ensures saved { name_of (record { sct = 1; sc = 0x0d }) ≡ codes "Feature Identifier Not Saveable" }
    ensures fixed { name_of (record { sct = 1; sc = 0x0e }) ≡ codes "Feature Not Changeable" }
    ensures attached { name_of (record { sct = 1; sc = 0x18 }) ≡ codes "Namespace Already Attached" }
    ensures private { name_of (record { sct = 1; sc = 0x19 }) ≡ codes "Namespace Is Private" }
    ensures detached { name_of (record { sct = 1; sc = 0x1a }) ≡ codes "Namespace Not Attached" }
    ensures list { name_of (record { sct = 1; sc = 0x1c }) ≡ codes "Controller List Invalid" }
{}

/// Media and data integrity errors, and types and codes without a name.
fn wire_media_statuses_example()
    ensures write { name_of (record { sct = 2; sc = 0x80 }) ≡ codes "Write Fault" }
    ensures read { name_of (record { sct = 2; sc = 0x81 }) ≡ codes "Unrecovered Read Error" }
    ensures compare { name_of (record { sct = 2; sc = 0x85 }) ≡ codes "Compare Failure" }
    ensures other_code { name_of (record { sct = 2; sc = 0x83 }) ≡ codes "Unlisted" }
    ensures path { name_of (record { sct = 3; sc = 0x80 }) ≡ codes "Unlisted" }
{}

/// A status that has a type, a code and a name has no others.
fn wire_named_example()
    ensures right { IsNamed (record { sct = 1; sc = 0x02 }) 1 0x02 (codes "Invalid Queue Size") }
    ensures other_type { IsNamed (record { sct = 1; sc = 0x02 }) 0 0x02 (codes "Invalid Queue Size") → ⊥ }
    ensures other_code { IsNamed (record { sct = 1; sc = 0x02 }) 1 0x01 (codes "Invalid Queue Size") → ⊥ }
    ensures other_name { IsNamed (record { sct = 1; sc = 0x02 }) 1 0x02 (codes "Invalid Field in Command") → ⊥ }
{}
