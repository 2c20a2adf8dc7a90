//! One line of a session before its fleet is opened.

ghost use Rattle.std.specs.Prelude.{◌≡◌, IfErr, IfOk, Err, Ok};
ghost use Rattle.nvme_grammar.specs.Lent.{line_by_value};
ghost use Rattle.live_text.specs.Asking.{asked_by_value};
ghost use Rattle.live_text.specs.declared.asking.Asked.TheVariants.{Sets};
ghost use Rattle.nvme_live.specs.Settling.{Comes};
ghost use Rattle.nvme_live.specs.SetUps.{HasSetUpRoom, set_up_of};
ghost use Rattle.nvme_live.specs.Streams.{SendsBy};
ghost use Rattle.nvme_live.specs.declared.setting.Settled.TheVariants.{Answered as IsAnswered};

use crate::line_numbers::{LineNumbers, set};
use crate::saying::{say, send};
use crate::turn::refuse;
use live_text::{Asked, Why};
use live_views::shown_early;
use nvme_grammar::Line;
use nvme_lines::Reading;
use nvme_program::ScriptFault;
use nvme_spec::Config;
use script_text::{FlushedSink, Text};

/// The result of a line before `start`.
#[derive(Clone, Copy, Debug, PartialEq, Eq)]
pub enum Settled {
    /// It was answered.
    Answered,
    /// It was `start`, which is not answered yet.
    Started,
}

/// The result of sending an answer.
fn answered(said: Result<(), ScriptFault>) -> Result<Settled, ScriptFault>
    ensures ok { IfOk said (λ _. result ≡ Ok IsAnswered) }
    ensures fault { IfErr said (λ fault. result ≡ Err fault) }
{
    match said {
        Ok(()) => Ok(Settled::Answered),
        Err(fault) => Err(fault),
    }
}

/// Adds a line to the configuration, and answers it; `start` is left to the caller.
fn take<W: FlushedSink>(
    number: u64,
    line: Line<'_>,
    config: &mut Config,
    numbers: &mut LineNumbers,
    writer: &mut W,
) -> Result<Settled, ScriptFault>
    requires { HasSetUpRoom config.old numbers.old }
    ensures room { HasSetUpRoom config.new numbers.new }
    ensures comes { Comes (SendsBy W.step W.flushes W.contents) result number (set_up_of config.old numbers.old)
        (Sets (line_by_value line.entry)) (set_up_of config.new numbers.new) writer.old writer.new }
{
    match line {
        Line::Start => Ok(Settled::Started),
        line => match set(number, config, numbers, line) {
            Ok(()) => answered(send(writer, b"ok\n")),
            Err(_) => Err(ScriptFault::NoMemory),
        },
    }
}

/// Answers a line before the fleet is opened; `start` is left to the caller.
pub fn settle<W: FlushedSink>(
    number: u64,
    asked: Asked<'_>,
    config: &mut Config,
    numbers: &mut LineNumbers,
    text: &mut Text,
    writer: &mut W,
) -> Result<Settled, ScriptFault>
    requires { HasSetUpRoom config.old numbers.old }
    ensures room { HasSetUpRoom config.new numbers.new }
    ensures comes { Comes (SendsBy W.step W.flushes W.contents) result number (set_up_of config.old numbers.old)
        (asked_by_value asked.entry) (set_up_of config.new numbers.new) writer.old writer.new }
{
    match asked {
        Asked::Sets(line) => take(number, line, config, numbers, writer),
        Asked::Fails(why) => answered(refuse(number, why, text, writer)),
        Asked::Nothing => answered(send(writer, b"ok\n")),
        Asked::Looks(looking) => answered(say(writer, text, &shown_early(number, looking))),
        Asked::Parses(line) => answered(say(writer, text, &Reading(line))),
        Asked::Does(_) => answered(refuse(number, Why::BehindStart, text, writer)),
    }
}
