//! The fields of Controller Configuration (CC) and of Admin Queue Attributes (AQA), and the values that a controller
//! supports.

ghost use Rattle.std.specs.Prelude.{◌≡◌, ◌<◌, ◌≤◌};
ghost use Rattle.nvme_spec.specs.Registers as register;

/// The number of bytes of host memory that a controller can address.
const WINDOW_LEN: u64 = 4_194_304;

/// CC.EN.
pub fn is_enabled(cc: u32) -> bool
    ensures { result ≡ register.is_enabled cc }
{
    cc & 1 == 1
}

/// CC.SHN, Shutdown Notification.
fn notification(cc: u32) -> u32
    ensures notification { result ≡ register.notification cc }
    ensures bits { result < 4 }
{
    (cc >> 14) & 0b11
}

/// Whether CC.SHN asks the controller to shut down: 01b normally, 10b abruptly.
pub fn is_shutdown(cc: u32) -> bool
    ensures { result ≡ register.is_shutdown cc }
{
    let notification = notification(cc);
    notification == 1 || notification == 2
}

/// CC with the Shutdown Notification of `v`, otherwise unchanged.
pub fn with_notification(cc: u32, v: u32) -> u32
    ensures { result ≡ register.with_notification cc v }
{
    (cc & 0x3fff) + (notification(v) << 14) + (cc >> 16 << 16)
}

/// Whether the controller supports CC: pages of 4 KiB (MPS), the NVM command set (CSS), round robin (AMS), and entries
/// of 64 and of 16 bytes (IOSQES, IOCQES).
pub fn is_supported(cc: u32) -> bool
    ensures { result ≡ register.is_supported cc }
{
    let page_size = (cc >> 7) & 0b1111;
    let command_set = (cc >> 4) & 0b111;
    let arbitration = (cc >> 11) & 0b111;
    let submission_entry_size = (cc >> 16) & 0b1111;
    let completion_entry_size = (cc >> 20) & 0b1111;
    page_size == 0
        && command_set == 0
        && arbitration == 0
        && submission_entry_size == 6
        && completion_entry_size == 4
}

/// AQA.ASQS: the number of entries of the admin submission queue.
pub fn submission_entries(aqa: u32) -> u16
    ensures entries { result ≡ register.admin_submission_size aqa }
    ensures few { result ≤ 4096 }
{
    (aqa & 0xfff) as u16 + 1
}

/// AQA.ACQS: the number of entries of the admin completion queue.
pub fn completion_entries(aqa: u32) -> u16
    ensures entries { result ≡ register.admin_completion_size aqa }
    ensures few { result ≤ 4096 }
{
    ((aqa >> 16) & 0xfff) as u16 + 1
}

/// Whether a queue of `entries` entries of `width` bytes can be an admin queue at this address: it has 2 to 64 entries,
/// begins a page, and is in host memory.
pub fn is_admin_queue(base: u64, entries: u16, width: u64) -> bool
    requires { width ≤ 64 }
    ensures { result ≡ register.is_admin_queue base entries width }
{
    2 <= entries
        && entries <= 64
        && base % 4096 == 0
        && base <= WINDOW_LEN - width * u64::from(entries)
}
