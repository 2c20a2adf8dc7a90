//! Reads the text of a configuration.

ghost use Rattle.std.specs.Prelude.{◌≡◌, List, ℕ};
ghost use Rattle.nvme_spec.specs.Configuration.{capacity};
ghost use Rattle.nvme_ns.specs.Configured.{configuration};
ghost use Rattle.nvme_library.specs.Reading.{Gives, ReadsText, Told, code_of, without_read};

use crate::codes;
use crate::configuration::{
    Attached, Controller, Namespace, put_attached, put_controllers, put_namespaces,
};
use crate::opening::number_of;
use library_text::{Refused, config_in, put_text};
use nvme_spec::Config;
use std::alloc::Global;

/// The result of reading a configuration.
#[repr(C)]
#[derive(Clone, Copy)]
pub struct Read {
    /// The number of its controllers, at the front of their array; 0 if it is refused.
    pub controllers: usize,
    /// The same for namespaces.
    pub namespaces: usize,
    /// The same for attachments.
    pub attached: usize,
    /// The number of the line at fault, from 1; 0 if there is none.
    pub line: usize,
    /// The column of the fault in that line, in bytes from 1; 0 if no line is at fault.
    pub column: usize,
    /// The length of the reason in bytes, at the front of its buffer; 0 if it is missing.
    pub length: usize,
    /// `OK`, or why the text is refused.
    pub what: u32,
}

/// Parses the lines of a script that describe a configuration, and checks it for a medium of `medium_blocks` blocks and
/// namespaces of at most `max_blocks` blocks each. `start` may end them, and no event may follow.
///
/// Returns `OK`, and the arrays begin with its controllers, namespaces and attachments; or `TOO_LONG`, `BAD_LINE`,
/// `TOO_MANY`, `BAD_ID`, `BAD_SIZE`, `DOES_NOT_FIT`, `HAS_EVENT`, `EMPTY` or `NO_MEMORY`, and the buffer begins with
/// the reason if it fits; or `NO_ROOM` if an array is too short. The arrays are unchanged unless the result is `OK`.
#[unsafe(no_mangle)]
pub extern "C" fn nvmesim_read_configuration(
    alloc: Global,
    text: &[u8],
    max_blocks: u64,
    medium_blocks: u64,
    controllers: &mut [Controller],
    namespaces: &mut [Namespace],
    attached: &mut [Attached],
    reason: &mut [u8],
) -> Read
    ensures { ReadsText text.now (capacity max_blocks medium_blocks) result
        (record {
          controllers = controllers.old;
          namespaces = namespaces.old;
          attached = attached.old;
          reason = reason.old;
        })
        (record {
          controllers = controllers.new;
          namespaces = namespaces.new;
          attached = attached.new;
          reason = reason.new;
        }) }
{
    match config_in(alloc, text, max_blocks, medium_blocks) {
        Ok(config) => give(&config, controllers, namespaces, attached),
        Err(refused) => tell(alloc, &refused, reason),
    }
}

/// Copies a configuration to the arrays of C, if it fits.
fn give(
    config: &Config,
    controllers: &mut [Controller],
    namespaces: &mut [Namespace],
    attached: &mut [Attached],
) -> Read
    ensures { (reason : List ℕ) → Gives (configuration config.now) result
        (record {
          controllers = controllers.old;
          namespaces = namespaces.old;
          attached = attached.old;
          reason = reason;
        })
        (record {
          controllers = controllers.new;
          namespaces = namespaces.new;
          attached = attached.new;
          reason = reason;
        }) }
{
    if config.controllers.len() > controllers.len()
        || config.namespaces.len() > namespaces.len()
        || config.attached.len() > attached.len()
    {
        return Read::without(codes::NO_ROOM);
    }
    put_controllers(&config.controllers, controllers);
    put_namespaces(&config.namespaces, namespaces);
    put_attached(&config.attached, attached);
    Read {
        controllers: config.controllers.len(),
        namespaces: config.namespaces.len(),
        attached: config.attached.len(),
        line: 0,
        column: 0,
        length: 0,
        what: codes::OK,
    }
}

/// Reports why a text is refused, with the reason if it fits the buffer.
fn tell(alloc: Global, refused: &Refused<'_>, reason: &mut [u8]) -> Read
    ensures { Told refused.now result reason.old reason.new }
{
    let (line, column) = refused.position();
    Read {
        controllers: 0,
        namespaces: 0,
        attached: 0,
        line,
        column,
        length: put_text(alloc, refused, "", reason).unwrap_or(0),
        what: code_of(refused),
    }
}

impl Read {
    /// No configuration, for this reason.
    fn without(what: u32) -> Self
        ensures { result ≡ without_read what }
    {
        Read {
            controllers: 0,
            namespaces: 0,
            attached: 0,
            line: 0,
            column: 0,
            length: 0,
            what,
        }
    }
}

/// The code of a refusal.
fn code_of(refused: &Refused<'_>) -> u32
    ensures { result ≡ code_of refused.now }
{
    match refused {
        Refused::TooLong => codes::TOO_LONG,
        Refused::Line(_, _) => codes::BAD_LINE,
        Refused::Rule(_, fault, _) => number_of(*fault),
        Refused::Event(_, _) => codes::HAS_EVENT,
        Refused::Empty => codes::EMPTY,
        Refused::NoMemory => codes::NO_MEMORY,
    }
}
