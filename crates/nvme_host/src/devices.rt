//! What a device said of itself, for C.

ghost use Rattle.std.specs.Prelude.{◌≡◌};
ghost use Rattle.nvme_host.specs.Devices.{
  capability_code,
  controller_code,
  namespace_code,
  admission_code,
  limits_of,
  controller_of,
  namespace_of,
};

use crate::codes;
use nvme_device::{
    Admission, Capabilities, CapabilityFault, ControllerFacts, ControllerFault, NamespaceFacts,
    NamespaceFault,
};

/// Controller Capabilities for C. Fields are 0 unless `code` is `OK`.
#[repr(C)]
#[derive(Clone, Copy)]
pub struct Limits {
    /// The longest time until Controller Status follows Controller Configuration, in milliseconds.
    pub timeout_ms: u32,
    /// The distance of two doorbells in bytes. The driver writes four, from offset 1000h.
    pub stride: u32,
    pub code: u32,
}

/// Identify Controller for C. Fields are 0 unless `code` is `OK`.
#[repr(C)]
#[derive(Clone, Copy)]
pub struct Controller {
    /// The highest namespace identifier.
    pub nn: u32,
    pub code: u32,
    pub cntlid: u16,
    /// The optional commands.
    pub oncs: u16,
    /// A command transfers at most 2 to the power of `mdts` pages of 4 KiB; 0 if there is no limit.
    pub mdts: u8,
    /// Volatile Write Cache.
    pub vwc: u8,
}

/// Identify Namespace for C. `blocks` is 0 unless `code` is `OK`.
#[repr(C)]
#[derive(Clone, Copy)]
pub struct Namespace {
    /// The number of blocks, of 512 bytes each.
    pub blocks: u64,
    pub code: u32,
}

fn capability_code(fault: CapabilityFault) -> u32
    ensures { result ≡ capability_code fault }
{
    match fault {
        CapabilityFault::Removed => codes::REMOVED,
        CapabilityFault::QueuesTooShort => codes::QUEUES_TOO_SHORT,
        CapabilityFault::NoNvmCommands => codes::NO_NVM_COMMANDS,
        CapabilityFault::PageSize => codes::PAGE_SIZE,
    }
}

fn controller_code(fault: ControllerFault) -> u32
    ensures { result ≡ controller_code fault }
{
    match fault {
        ControllerFault::NotIo => codes::NOT_IO,
        ControllerFault::EntrySize => codes::ENTRY_SIZE,
    }
}

fn namespace_code(fault: NamespaceFault) -> u32
    ensures { result ≡ namespace_code fault }
{
    match fault {
        NamespaceFault::NotThere => codes::NOT_THERE,
        NamespaceFault::BlockSize => codes::BLOCK_SIZE,
        NamespaceFault::Metadata => codes::METADATA,
    }
}

/// The number of the reason to refuse a request; `None` if it is admitted.
pub fn admission_code(admission: Admission) -> Option<u32>
    ensures { result ≡ admission_code admission }
{
    match admission {
        Admission::Admitted => None,
        Admission::ControllerNotAsked => Some(codes::CONTROLLER_NOT_ASKED),
        Admission::Controller(fault) => Some(controller_code(fault)),
        Admission::NamespaceNotAsked => Some(codes::NAMESPACE_NOT_ASKED),
        Admission::Namespace(fault) => Some(namespace_code(fault)),
        Admission::NotSupported => Some(codes::NOT_SUPPORTED),
        Admission::TooLong => Some(codes::TOO_LONG),
        Admission::PastTheEnd => Some(codes::PAST_THE_END),
    }
}

impl Limits {
    pub(crate) fn without(code: u32) -> Limits
        ensures { result ≡ record { timeout_ms = 0; stride = 0; code = code } }
    {
        Limits {
            timeout_ms: 0,
            stride: 0,
            code,
        }
    }

    pub(crate) fn of(judged: Result<Capabilities, CapabilityFault>) -> Limits
        ensures { result ≡ limits_of judged }
    {
        match judged {
            Ok(capabilities) => Limits {
                timeout_ms: capabilities.timeout_ms,
                stride: capabilities.stride,
                code: codes::OK,
            },
            Err(fault) => Limits::without(capability_code(fault)),
        }
    }
}

impl Controller {
    pub(crate) fn without(code: u32) -> Controller
        ensures { result ≡ record { nn = 0; code = code; cntlid = 0; oncs = 0; mdts = 0; vwc = 0 } }
    {
        Controller {
            nn: 0,
            code,
            cntlid: 0,
            oncs: 0,
            mdts: 0,
            vwc: 0,
        }
    }

    pub(crate) fn of(judged: Option<Result<ControllerFacts, ControllerFault>>) -> Controller
        ensures { result ≡ controller_of judged }
    {
        match judged {
            Some(Ok(facts)) => Controller {
                nn: facts.nn,
                code: codes::OK,
                cntlid: facts.cntlid,
                oncs: facts.oncs,
                mdts: facts.mdts,
                vwc: facts.vwc,
            },
            Some(Err(fault)) => Controller::without(controller_code(fault)),
            None => Controller::without(codes::CONTROLLER_NOT_ASKED),
        }
    }
}

impl Namespace {
    pub(crate) fn without(code: u32) -> Namespace
        ensures { result ≡ record { blocks = 0; code = code } }
    {
        Namespace { blocks: 0, code }
    }

    pub(crate) fn of(judged: Option<Result<NamespaceFacts, NamespaceFault>>) -> Namespace
        ensures { result ≡ namespace_of judged }
    {
        match judged {
            Some(Ok(facts)) => Namespace {
                blocks: facts.blocks,
                code: codes::OK,
            },
            Some(Err(fault)) => Namespace::without(namespace_code(fault)),
            None => Namespace::without(codes::NAMESPACE_NOT_ASKED),
        }
    }
}
