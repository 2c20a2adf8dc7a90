//! Worked examples of the rule for LBA ranges, at the ends of large namespaces. Each is the contract of an empty
//! function, proved by computing.
#![tactic(auto, unfolding(nvme_spec::specs::Commands::block_count, nvme_spec::specs::Commands::starting_lba, nvme_spec::specs::Entries::transfer_entry, nvme_spec::specs::IoRules::range_rule, nvme_spec::specs::Rules::judgement_by, nvme_wire::specs::Submission::cdw10, nvme_wire::specs::Submission::cdw11, nvme_wire::specs::Submission::cdw12))]

ghost use Rattle.std.specs.Prelude.{◌≡◌, ◌+◌, ◌-◌, ◌^◌, Ok};
ghost use Rattle.nvme_policy.specs.Examples.{out_of_range, read_of};

/// The last two blocks can be read, and no range that ends after them.
fn last_blocks()
    ensures at_2_31 { read_of (2 ^ 31) (2 ^ 31 - 2) 2 ≡ Ok tt }
    ensures after_2_31 { read_of (2 ^ 31) (2 ^ 31 - 1) 2 ≡ out_of_range }
    ensures at_2_32 { read_of (2 ^ 32) (2 ^ 32 - 2) 2 ≡ Ok tt }
    ensures after_2_32 { read_of (2 ^ 32) (2 ^ 32 - 1) 2 ≡ out_of_range }
    ensures at_2_40 { read_of (2 ^ 40) (2 ^ 40 - 2) 2 ≡ Ok tt }
    ensures after_2_40 { read_of (2 ^ 40) (2 ^ 40 - 1) 2 ≡ out_of_range }
    ensures at_2_63 { read_of (2 ^ 63) (2 ^ 63 - 2) 2 ≡ Ok tt }
    ensures after_2_63 { read_of (2 ^ 63) (2 ^ 63 - 1) 2 ≡ out_of_range }
{}

/// A range from the end is outside, and so is one whose end exceeds 64 bits: it is not counted from 0 again.
fn ranges_from_the_end()
    ensures end { read_of (2 ^ 40) (2 ^ 40) 1 ≡ out_of_range }
    ensures high { read_of (2 ^ 40) (2 ^ 40 + 2 ^ 32) 1 ≡ out_of_range }
    ensures wraps { read_of (2 ^ 63) (2 ^ 64 - 1) 2 ≡ out_of_range }
    ensures largest { read_of (2 ^ 64 - 1) (2 ^ 64 - 2) 1 ≡ Ok tt }
    ensures beyond { read_of (2 ^ 64 - 1) (2 ^ 64 - 2) 2 ≡ out_of_range }
{}
