//! Events that a controller reports.

ghost use Rattle.std.specs.Prelude.{◌≡◌};
ghost use Rattle.nvme_host.specs.Events.{event_kind, event_of};

/// An event for C, by double word 0 of the answer to an Asynchronous Event Request.
#[repr(C)]
#[derive(Clone, Copy)]
pub struct Event {
    /// Which one it is; 0 if it has no name here.
    pub kind: u32,
    /// Asynchronous Event Type.
    pub event_type: u8,
    /// Asynchronous Event Information.
    pub info: u8,
    /// Log Page Identifier: the page that says more, and that clears the event.
    pub log_page: u8,
}

/// The kind of an event, by its type and its information.
fn event_kind(event_type: u8, info: u8) -> u32
    ensures { result ≡ event_kind event_type info }
{
    match (event_type, info) {
        (0, _) => 1,
        (1, _) => 2,
        (2, 0) => 3,
        (2, 1) => 4,
        (6, 0) => 5,
        (6, 1) => 6,
        _ => 0,
    }
}

/// Reads double word 0 of the answer to an Asynchronous Event Request.
#[unsafe(no_mangle)]
pub extern "C" fn nvmehost_event(dw0: u32) -> Event
    ensures { result ≡ event_of dw0 }
{
    let event_type = (dw0 & 7) as u8;
    let info = ((dw0 >> 8) & 0xff) as u8;
    let log_page = ((dw0 >> 16) & 0xff) as u8;
    Event {
        kind: event_kind(event_type, info),
        event_type,
        info,
        log_page,
    }
}
