//! What a fetched command needs, for C: the calls of the medium that its execution may make.

ghost use Rattle.std.specs.Prelude.{◌≡◌};
ghost use Rattle.nvme_library.specs.Needs.{needed_at, needed_in, told, without_need};

use crate::codes;
use crate::handle::Handle;
use crate::held::Held;
use nvme_subsys::Need;
use std::alloc::Global;

/// What a command needs of the medium.
#[repr(C)]
#[derive(Clone, Copy)]
pub struct Needed {
    /// The first block, counted from the first of the medium.
    pub first: u64,
    /// The number of blocks.
    pub blocks: u32,
    /// `OK`; else why there is no such command, and the other fields are 0.
    pub what: u32,
    /// `NEEDS_NOTHING`, `NEEDS_READ`, `NEEDS_WRITE`, `NEEDS_ZERO` or `NEEDS_FLUSH`.
    pub kind: u32,
}

/// What the `i`-th command, from 0, that a controller has fetched needs of the medium if it is executed now: `OK`,
/// `NO_SUCH`, `NO_CONTROLLER` or `CLOSED`. Its execution makes no other calls; a rule on its data may still deny it.
#[unsafe(no_mangle)]
pub extern "C" fn nvmesim_needs(alloc: Global, sim: &mut Handle, cntlid: u16, i: usize) -> Needed
    ensures needed { result ≡ needed_in sim.old.slot.value cntlid i }
    ensures kept { sim.new.slot.value ≡ sim.old.slot.value }
{
    let Some(subsystem) = sim.take(alloc) else {
        return Needed::without(codes::CLOSED);
    };
    let needed = Needed::at(&subsystem, cntlid, i);
    *sim = Handle::of(subsystem);
    needed
}

impl Needed {
    /// No such command.
    fn without(what: u32) -> Self
        ensures { result ≡ without_need what }
    {
        Needed {
            first: 0,
            blocks: 0,
            what,
            kind: codes::NEEDS_NOTHING,
        }
    }

    /// A need of these blocks of the medium.
    fn on(kind: u32, first: u64, blocks: u32) -> Self
        ensures { result ≡ record { first = first; blocks = blocks; what = 0; kind = kind } }
    {
        Needed {
            first,
            blocks,
            what: codes::OK,
            kind,
        }
    }

    /// The need in the form for C.
    fn of(need: Need) -> Self
        ensures { result ≡ told need }
    {
        match need {
            Need::Nothing => Needed::on(codes::NEEDS_NOTHING, 0, 0),
            Need::Read { first, blocks } => Needed::on(codes::NEEDS_READ, first, blocks),
            Need::Write { first, blocks } => Needed::on(codes::NEEDS_WRITE, first, blocks),
            Need::Zero { first, blocks } => Needed::on(codes::NEEDS_ZERO, first, blocks),
            Need::Flush => Needed::on(codes::NEEDS_FLUSH, 0, 0),
        }
    }

    /// The need of the command at a place.
    fn at(subsystem: &Held, cntlid: u16, i: usize) -> Self
        ensures { result ≡ needed_at subsystem.now.state cntlid i }
    {
        let Some(controller) = subsystem.controller(cntlid) else {
            return Needed::without(codes::NO_CONTROLLER);
        };
        match controller.fetched().get(i) {
            Some(_) => Needed::of(subsystem.need(cntlid, i)),
            None => Needed::without(codes::NO_SUCH),
        }
    }
}
