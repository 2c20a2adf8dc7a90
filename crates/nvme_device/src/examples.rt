//! Worked examples of the definitions. Each is the contract of an empty function, proved by computing.

ghost use Rattle.std.specs.Prelude.{◌≡◌, None, Some, Ok, Err, true, false};
ghost use Rattle.nvme_spec.specs.declared.command.Command.TheVariants.{Read, Compare, WriteZeroes, ReservationReport};
ghost use Rattle.nvme_device.specs.declared.capabilities.CapabilityFault.TheVariants as unfit;
ghost use Rattle.nvme_device.specs.declared.namespace.NamespaceFault.TheVariants.{BlockSize};
ghost use Rattle.nvme_device.specs.declared.admission.Admission.TheVariants as admission;
ghost use Rattle.nvme_device.specs.declared.status.Awaited.TheVariants as awaited;
ghost use Rattle.nvme_device.specs.declared.status.Progress.TheVariants as progress;
ghost use Rattle.nvme_device.specs.Admissions.{admission_of, is_short};
ghost use Rattle.nvme_device.specs.Capabilities.{capabilities_of, judged_capabilities};
ghost use Rattle.nvme_device.specs.Controllers.{can_have};
ghost use Rattle.nvme_device.specs.Examples.{qemu, disk, span};
ghost use Rattle.nvme_device.specs.Namespaces.{format_index};
ghost use Rattle.nvme_device.specs.Status.{progress_of};

/// QEMU's controller suits: queues of up to 2,048 entries, 7.5 s, doorbells 4 bytes apart. A device that is gone does
/// not, nor one with queues of 31 entries, without the NVM command set, or with pages of 8 KiB.
pub fn capabilities_are_judged()
    ensures suits { judged_capabilities 0x004018200f0107ff ≡ Ok (record { timeout_ms = 7500; stride = 4 }) }
    ensures no_time { capabilities_of 0x00401820000107ff ≡ record { timeout_ms = 500; stride = 4 } }
    ensures far { capabilities_of 0x0040182f0f0107ff ≡ record { timeout_ms = 7500; stride = 131072 } }
    ensures removed { judged_capabilities 0xffffffffffffffff ≡ Err unfit.Removed }
    ensures exact { judged_capabilities 0x004018200f01001f ≡ Ok (record { timeout_ms = 7500; stride = 4 }) }
    ensures short { judged_capabilities 0x004018200f01001e ≡ Err unfit.QueuesTooShort }
    ensures commands { judged_capabilities 0x004018000f0107ff ≡ Err unfit.NoNvmCommands }
    ensures page { judged_capabilities 0x004118200f0107ff ≡ Err unfit.PageSize }
{}

/// A status is awaited up to its time, in both directions; a device that is gone reads as ones, which is not ready; and
/// a failed controller is not, unless it is being disabled.
pub fn status_is_judged()
    ensures ready { progress_of awaited.Ready 1 9 500 ≡ progress.Reached }
    ensures waits { progress_of awaited.Ready 0 499 500 ≡ progress.Waits }
    ensures over { progress_of awaited.Ready 0 500 500 ≡ progress.TimedOut }
    ensures late { progress_of awaited.Ready 1 501 500 ≡ progress.Reached }
    ensures removed { progress_of awaited.Ready 0xffffffff 0 500 ≡ progress.Removed }
    ensures fatal { progress_of awaited.Ready 3 0 500 ≡ progress.Fatal }
    ensures disabled { progress_of awaited.Disabled 2 0 500 ≡ progress.Reached }
    ensures still { progress_of awaited.Disabled 3 0 500 ≡ progress.Waits }
    ensures gone { progress_of awaited.Disabled 0xffffffff 0 500 ≡ progress.Removed }
    ensures shutting { progress_of awaited.ShutDown 5 0 500 ≡ progress.Waits }
    ensures shut { progress_of awaited.ShutDown 9 0 500 ≡ progress.Reached }
{}

/// Bits of Identify: 66h can have entries of 2 to the power of 6 bytes, 55h and 77h cannot; FLBAS 64h is format 52.
pub fn fields_are_read()
    ensures both { can_have 0x66 6 ≡ true }
    ensures range { can_have 0x96 6 ≡ true }
    ensures small { can_have 0x55 6 ≡ false }
    ensures large { can_have 0x77 6 ≡ false }
    ensures format { format_index 0x64 ≡ 52 }
    ensures low { format_index 0x14 ≡ 4 }
{}

/// What is asked first: nothing is sent to a namespace that was not asked, whose blocks have another size, or whose
/// controller does not support it. The last block is inside, and the one after it is not.
pub fn requests_are_admitted()
    ensures admitted { admission_of (Some (Ok qemu)) (Some (Ok disk)) Read (span 131064 8 4096) ≡ admission.Admitted }
    ensures end { admission_of (Some (Ok qemu)) (Some (Ok disk)) Read (span 131065 8 4096) ≡ admission.PastTheEnd }
    ensures first { admission_of None (Some (Ok disk)) Read (span 0 1 512) ≡ admission.ControllerNotAsked }
    ensures second { admission_of (Some (Ok qemu)) None Read (span 0 1 512) ≡ admission.NamespaceNotAsked }
    ensures size { admission_of (Some (Ok qemu)) (Some (Err BlockSize)) Read (span 0 1 512)
        ≡ admission.Namespace BlockSize }
    ensures compare { admission_of (Some (Ok qemu)) (Some (Ok disk)) Compare (span 0 1 512) ≡ admission.Admitted }
    ensures zeroes { admission_of (Some (Ok qemu)) (Some (Ok disk)) WriteZeroes (span 0 1 0) ≡ admission.Admitted }
    ensures report { admission_of (Some (Ok qemu)) (Some (Ok disk)) ReservationReport (span 0 0 4096)
        ≡ admission.NotSupported }
    ensures long { admission_of (Some (Ok (record qemu { mdts = 3 }))) (Some (Ok disk)) Read (span 0 65 33280)
        ≡ admission.TooLong }
    ensures exact { admission_of (Some (Ok (record qemu { mdts = 3 }))) (Some (Ok disk)) Read (span 0 64 32768)
        ≡ admission.Admitted }
    ensures unlimited { is_short 0 131072 ≡ true }
{}
