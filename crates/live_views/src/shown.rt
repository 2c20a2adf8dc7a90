//! The answer to a query, as a value with a text.

ghost use Rattle.std.specs.Prelude.{◌≡◌, option_map};
ghost use Rattle.script_text.specs.Pages.{Adds};
ghost use Rattle.live_text.specs.Faults.{refusal};
ghost use Rattle.live_views.specs.Looks.{looked_text, parts_text};
ghost use Rattle.live_views.specs.Showing.{
  controller_shown,
  early_text,
  help_text,
  of_controller,
  reservation_shown,
  window_shown,
};
ghost use Rattle.live_views.specs.Shown.{shown_by};

use crate::commands::FetchedText;
use crate::controllers::{BlocksText, RegisterText, RegistersText, WindowText};
use crate::drivers::DriverText;
use crate::queues::QueuesText;
use crate::spaces::{AttachedText, NamespacesText, ReservationText};
use live_text::{Form, Looking, LookingWord, Refusal, Why};
use nvme_ctrl::Controller;
use nvme_grammar::Keyword;
use nvme_ns::Spaces;
use nvme_spec::{MOST_BYTES, MediumFault};
use script_text::{NoRoom, Page, Spell, put_both};

/// The answer to a query.
#[derive(Clone, Copy)]
pub enum Shown<'a> {
    /// A refusal, for this reason.
    Nothing(Refusal<'a>),
    /// The first words of all lines.
    Help,
    /// The form of a line.
    HelpOn(Form),
    Window(WindowText<'a>),
    Register(RegisterText),
    Registers(RegistersText<'a>),
    Queues(QueuesText<'a>),
    Fetched(FetchedText<'a>),
    Driver(DriverText<'a>),
    Namespaces(NamespacesText<'a>),
    Attached(AttachedText<'a>),
    Reservation(ReservationText<'a>),
    Blocks(BlocksText<'a>),
}

impl Spell for Shown<'_> {
    ghost spelled = { shown_by };

    fn spell<P: Page>(&self, page: &mut P) -> Result<(), NoRoom> {
        match self {
            Shown::Nothing(refusal) => refusal.spell(page),
            Shown::Help => put_help(page),
            Shown::HelpOn(form) => put_both(page, "help ", form.text()),
            Shown::Window(text) => text.spell(page),
            Shown::Register(text) => text.spell(page),
            Shown::Registers(text) => text.spell(page),
            Shown::Queues(text) => text.spell(page),
            Shown::Fetched(text) => text.spell(page),
            Shown::Driver(text) => text.spell(page),
            Shown::Namespaces(text) => text.spell(page),
            Shown::Attached(text) => text.spell(page),
            Shown::Reservation(text) => text.spell(page),
            Shown::Blocks(text) => text.spell(page),
        }
    }
}

/// Puts the first words of all lines.
fn put_help<P: Page>(page: &mut P) -> Result<(), NoRoom>
    ensures { Adds P.room result (P.written page.old) help_text (P.written page.new) }
{
    page.put_str("help")?;
    put_both(page, Keyword::all_texts(), LookingWord::all_texts())
}

/// A refusal of the line with this number, for this reason.
pub fn nothing(number: u64, why: Why<'_>) -> Shown<'_>
    ensures { shown_by result ≡ refusal number why.entry }
{
    Shown::Nothing(Refusal { number, why })
}

/// The answer to a query before there is a subsystem.
pub fn shown_early<'a>(number: u64, looking: Looking) -> Shown<'a>
    ensures { shown_by result ≡ early_text number looking }
{
    match looking {
        Looking::Help => Shown::Help,
        Looking::HelpOn(form) => Shown::HelpOn(form),
        _ => nothing(number, Why::BehindStart),
    }
}

/// The answer about a window.
fn window_of(number: u64, range: (u16, u64, u32), controller: &Controller) -> Shown<'_>
    ensures { shown_by result ≡ window_shown number range.0 range.1 range.2 controller.now }
{
    let (cntlid, address, len) = range;
    if len > MOST_BYTES as u32 {
        return nothing(number, Why::OutsideWindow);
    }
    match controller.window().piece(address, u64::from(len)) {
        Some(bytes) => Shown::Window(WindowText {
            cntlid,
            address,
            bytes,
        }),
        None => nothing(number, Why::OutsideWindow),
    }
}

/// The answer about a controller.
pub fn controller_of(number: u64, looking: Looking, controller: &Controller) -> Shown<'_>
    ensures { shown_by result ≡ controller_shown number looking controller.now }
{
    match looking {
        Looking::Window {
            cntlid,
            address,
            len,
        } => window_of(number, (cntlid, address, len), controller),
        Looking::Register { cntlid, offset } => {
            let value = controller.read32(offset);
            Shown::Register(RegisterText {
                cntlid,
                offset,
                value,
            })
        }
        Looking::Registers(cntlid) => Shown::Registers(RegistersText { cntlid, controller }),
        Looking::Queues(cntlid) => Shown::Queues(QueuesText { cntlid, controller }),
        Looking::Fetched(cntlid) => {
            let commands = controller.fetched();
            Shown::Fetched(FetchedText { cntlid, commands })
        }
        _ => nothing(number, Why::NoController),
    }
}

/// The answer about a namespace's reservation.
pub fn reservation_of(number: u64, nsid: u32, spaces: &Spaces) -> Shown<'_>
    ensures { shown_by result ≡ reservation_shown number nsid spaces.now }
{
    match spaces.namespace(nsid) {
        Some(namespace) => Shown::Reservation(ReservationText {
            nsid,
            reservation: namespace.reservation(),
            protected: namespace.protection_state(),
        }),
        None => nothing(number, Why::NoNamespace),
    }
}

/// The answer about the controller of a query, if there is one.
fn named(number: u64, looking: Looking, controller: Option<&Controller>) -> Shown<'_>
    ensures { shown_by result ≡ of_controller number (option_map (λ c. c.now) controller.entry)
        (controller_shown number looking) }
{
    match controller {
        Some(controller) => controller_of(number, looking, controller),
        None => nothing(number, Why::NoController),
    }
}

/// The answer to the line with this number, a query of anything but blocks, from the controller that it names, if there
/// is one, or from the access state. There is no driver.
pub fn shown_in<'a>(
    number: u64,
    looking: Looking,
    controller: Option<&'a Controller>,
    spaces: &'a Spaces,
) -> Shown<'a>
    ensures { shown_by result ≡ parts_text number looking (option_map (λ c. c.now) controller.entry) spaces.now }
{
    match looking {
        Looking::Help => Shown::Help,
        Looking::HelpOn(form) => Shown::HelpOn(form),
        Looking::Namespaces => Shown::Namespaces(NamespacesText(spaces.namespaces())),
        Looking::Attached => Shown::Attached(AttachedText(spaces.attachments())),
        Looking::Reservation(nsid) => reservation_of(number, nsid, spaces),
        Looking::Driver(_) => nothing(number, Why::NoDriver),
        Looking::Window { .. }
        | Looking::Register { .. }
        | Looking::Registers(_)
        | Looking::Queues(_)
        | Looking::Fetched(_) => named(number, looking, controller),
        Looking::Blocks { .. } => nothing(number, Why::OutsideNamespace),
    }
}

/// The answer to the line with this number about blocks, from the result of reading them.
pub fn blocks_shown(
    number: u64,
    range: (u32, u64, u32),
    looked: Option<Result<(), MediumFault>>,
    bytes: &[u8],
) -> Shown<'_>
    ensures { shown_by result ≡ looked_text number range.0 range.1 range.2 bytes.now looked }
{
    let (nsid, slba, count) = range;
    match looked {
        Some(Ok(())) => Shown::Blocks(BlocksText {
            nsid,
            slba,
            count,
            bytes,
        }),
        Some(Err(_)) => nothing(number, Why::MediumFailed),
        None => nothing(number, Why::OutsideNamespace),
    }
}
