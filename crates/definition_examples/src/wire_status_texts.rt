//! Statuses as text, type and code in hexadecimal.

ghost use Rattle.std.specs.Prelude.{◌≡◌, codes};
ghost use Rattle.nvme_wire.specs.StatusNames.{status_text};

/// One digit and two. A type of two digits, which no entry has, is not cut.
fn wire_status_text_example()
    ensures conflict { status_text (record { sct = 0; sc = 0x83 }) ≡ codes "0:83" }
    ensures zero { status_text (record { sct = 1; sc = 0x0c }) ≡ codes "1:0c" }
    ensures greatest { status_text (record { sct = 7; sc = 0xff }) ≡ codes "7:ff" }
    ensures wide { status_text (record { sct = 0x10; sc = 0x00 }) ≡ codes "10:00" }
{}
