//! Query lines, each answered by the text of a session over the same subsystem.

ghost use Rattle.std.specs.Prelude.{◌≡◌, ◌*◌, ◌≤◌, ◌∷◌, ◌++◌, [], IfOk, length, option_map, true};
ghost use Rattle.live_text.specs.Asking.{asked, asked_by_value, is_mark};
ghost use Rattle.live_text.specs.Looking.{is_looking};
ghost use Rattle.live_text.specs.declared.asking.Asked.TheVariants.{Looks};
ghost use Rattle.live_text.specs.declared.looking.Looking.TheVariants as look;
ghost use Rattle.live_views.specs.Looks.{named_in};
ghost use Rattle.nvme_library.specs.LookingLines.{Answers, AnswersIf, AnswersLine};
ghost use Rattle.nvme_library.specs.Written.{Writes};

use crate::codes;
use crate::handle::Handle;
use crate::held::Held;
use crate::rooms::Rooms;
use crate::written::Written;
use library_text::put_text;
use live_text::{Asked, Looking, Refusal, Why, asked_of, is_looking};
use live_views::{blocks_shown, nothing, shown_in};
use nvme_ctrl::Controller;
use nvme_lines::Reading;
use script_text::Spell;
use std::alloc::{AllocError, Global};

/// Answers a query line, such as `?queues 1`, as a session over the same subsystem does, and puts the answer and a line
/// feed at the front of a buffer: `OK`; or `NO_ROOM`, `NO_MEMORY`, `CLOSED`, or `NO_LINE` if the line does not begin
/// with `?`, and the buffer is unchanged. A refusal names the line by its number. No host has a driver here.
#[unsafe(no_mangle)]
pub extern "C" fn nvmesim_look(
    alloc: Global,
    sim: &mut Handle,
    number: u64,
    line: &[u8],
    answer: &mut [u8],
) -> Written
    ensures { AnswersLine number line.now sim.old.slot.value result answer.old answer.new sim.new.slot.value }
{
    let Some(mut subsystem) = sim.take(alloc) else {
        return Written::without(codes::CLOSED);
    };
    let written = answer_line(alloc, &mut subsystem, number, line, answer);
    *sim = Handle::of(subsystem);
    written
}

/// Answers a line, if it is a query.
fn answer_line(
    alloc: Global,
    subsystem: &mut Held,
    number: u64,
    line: &[u8],
    answer: &mut [u8],
) -> Written
    ensures { AnswersIf (is_looking line.now) number line.now subsystem.old result answer.old answer.new subsystem.new }
{
    if !is_looking(line) {
        return Written::without(codes::NO_LINE);
    }
    let Ok(mut rooms) = Rooms::of(alloc, line) else {
        return Written::without(codes::NO_MEMORY);
    };
    let asked = asked_of(
        line,
        &mut rooms.bytes,
        &mut rooms.identifiers,
        &mut rooms.spare,
    );
    answer_asked(alloc, subsystem, number, asked, answer)
}

/// Answers a parsed query, or the fault of one.
fn answer_asked(
    alloc: Global,
    subsystem: &mut Held,
    number: u64,
    asked: Asked<'_>,
    answer: &mut [u8],
) -> Written
    requires { is_mark (asked_by_value asked) ≡ true }
    ensures { Answers number (asked_by_value asked.entry) subsystem.old result answer.old answer.new subsystem.new }
{
    match asked {
        Asked::Fails(why) => answer_with(alloc, &Refusal { number, why }, answer),
        Asked::Looks(looking) => answer_look(alloc, subsystem, number, looking, answer),
        Asked::Parses(line) => answer_with(alloc, &Reading(line), answer),
        Asked::Nothing | Asked::Sets(_) | Asked::Does(_) => Written::without(codes::NO_LINE),
    }
}

/// Answers a query.
fn answer_look(
    alloc: Global,
    subsystem: &mut Held,
    number: u64,
    looking: Looking,
    answer: &mut [u8],
) -> Written
    ensures { Answers number (Looks looking) subsystem.old result answer.old answer.new subsystem.new }
{
    match looking {
        Looking::Blocks { nsid, slba, count } => {
            answer_blocks(alloc, subsystem, number, (nsid, slba, count), answer)
        }
        _ => {
            let controller = named(looking, subsystem);
            answer_with(
                alloc,
                &shown_in(number, looking, controller, subsystem.spaces()),
                answer,
            )
        }
    }
}

/// The controller that a query names, if it exists.
fn named(looking: Looking, subsystem: &Held) -> Option<&Controller>
    ensures { option_map (λ c. c.now) result ≡ named_in subsystem.now.state looking }
{
    match looking.cntlid() {
        Some(cntlid) => subsystem.controller(cntlid),
        None => None,
    }
}

/// A buffer of `count` blocks, at most 256.
fn room_for_blocks(alloc: Global, count: u32) -> Result<Vec<u8>, AllocError>
    requires { count ≤ 256 }
    ensures { IfOk result (λ room. length room.items ≡ 512 * count) }
{
    vec![in alloc; 0; 512 * count as usize]
}

/// Answers a query of a namespace's blocks.
fn answer_blocks(
    alloc: Global,
    subsystem: &mut Held,
    number: u64,
    range: (u32, u64, u32),
    answer: &mut [u8],
) -> Written
    ensures { Answers number (Looks (look.Blocks range.0 range.1 range.2)) subsystem.old result answer.old answer.new
        subsystem.new }
{
    let (nsid, slba, count) = range;
    if count == 0 || count > 256 {
        return answer_with(alloc, &nothing(number, Why::OutsideNamespace), answer);
    }
    let Ok(mut room) = room_for_blocks(alloc, count) else {
        return Written::without(codes::NO_MEMORY);
    };
    let bytes = room.as_mut_slice();
    let looked = subsystem.read_blocks(nsid, slba, bytes);
    answer_with(alloc, &blocks_shown(number, range, looked, bytes), answer)
}

/// Puts the text of a value and a line feed at the front of a buffer.
fn answer_with<T: Spell>(alloc: Global, value: &T, answer: &mut [u8]) -> Written
    ensures { Writes (T.spelled value.now ++ 10 ∷ []) result answer.old answer.new }
{
    Written::of(put_text(alloc, value, "\n", answer))
}
