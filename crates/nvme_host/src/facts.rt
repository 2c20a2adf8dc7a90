//! What the driver knows of its controller and of the namespaces: the last answers of Identify.

ghost use Rattle.std.specs.Prelude.{◌≡◌, ◌≤◌, length};
ghost use Rattle.nvme_host.specs.Facts.{
  no_facts,
  is_answered,
  namespace_facts,
  asked,
  with_question,
  with_answer,
  learned,
  learned_of_question,
  with_command,
  is_identity_answer,
  with_identity,
  needs_identifier as needs,
  admission_on,
};

use crate::codes;
use crate::outcome::{Outcome, Placed};
use nvme_device::{
    Admission, ControllerFacts, ControllerFault, NamespaceFacts, NamespaceFault, Span,
};
use nvme_spec::Command;

/// The highest namespace identifier that there is a place for.
pub const HIGHEST_NSID: u32 = 64;

/// An Identify that was placed to learn of a namespace, or of the controller if `nsid` is 0.
#[derive(Clone, Copy)]
pub struct Question {
    pub ticket: u64,
    pub nsid: u32,
}

/// The last answers of Identify: of the controller, and of each namespace by its identifier; and the last question.
#[derive(Clone, Copy)]
pub struct DeviceFacts {
    pub controller: Option<Result<ControllerFacts, ControllerFault>>,
    pub namespaces: [Option<Result<NamespaceFacts, NamespaceFault>>; 65],
    pub asked: Option<Question>,
    /// The ticket of the last Set Features of the Host Identifier, until it is answered.
    pub identifying: Option<u64>,
    /// Whether the controller has the identifier of this host.
    pub host_identified: bool,
}

/// Whether a command needs the identifier of this host.
pub fn needs_identifier(command: Command) -> bool
    ensures { result ≡ needs command }
{
    matches!(
        command,
        Command::ReservationRegister | Command::ReservationAcquire | Command::ReservationRelease
    )
}

impl DeviceFacts {
    /// Nothing.
    pub(crate) fn none() -> DeviceFacts
        ensures { result ≡ no_facts }
    {
        DeviceFacts {
            controller: None,
            namespaces: [None; 65],
            asked: None,
            identifying: None,
            host_identified: false,
        }
    }

    /// What is known of a namespace.
    pub(crate) fn namespace(&self, nsid: u32) -> Option<Result<NamespaceFacts, NamespaceFault>>
        ensures { result ≡ namespace_facts self.now nsid }
    {
        self.namespaces.get(nsid as usize).copied().flatten()
    }

    /// Judges a request on a namespace.
    pub(crate) fn admission(&self, nsid: u32, command: Command, span: Span) -> Admission
        ensures { result ≡ admission_on self.now nsid command span }
    {
        Admission::of(self.controller, self.namespace(nsid), command, span)
    }

    /// A question about `nsid` was placed: what was known of it is no longer.
    fn ask(&mut self, ticket: u64, nsid: u32)
        ensures { self.new ≡ asked self.old ticket nsid }
    {
        if nsid == 0 {
            self.controller = None;
        } else if nsid <= HIGHEST_NSID {
            self.namespaces[nsid as usize] = None;
        }
        self.asked = Some(Question { ticket, nsid });
    }

    /// A question about `nsid` has this result.
    pub(crate) fn record_question(&mut self, placed: &Placed, nsid: u32)
        ensures { self.new ≡ with_question self.old placed.now nsid }
    {
        if placed.code == codes::OK {
            self.ask(placed.ticket, nsid);
        }
    }

    /// Whether a result of a poll is the answer to the last question.
    fn is_answered(&self, outcome: &Outcome) -> bool
        ensures { result ≡ is_answered self.now.asked outcome.now }
    {
        match self.asked {
            Some(question) => outcome.code == codes::DONE && outcome.ticket == question.ticket,
            None => false,
        }
    }

    /// The answer to a question about `nsid` has these bytes.
    fn record_answer(&mut self, nsid: u32, bytes: &[u8])
        requires { 4096 ≤ length bytes.now }
        ensures { self.new ≡ with_answer self.old nsid bytes.now }
    {
        if nsid == 0 {
            self.controller = Some(ControllerFacts::judge(bytes));
        } else if nsid <= HIGHEST_NSID {
            self.namespaces[nsid as usize] = Some(NamespaceFacts::judge(bytes));
        }
    }

    /// A command has this result; `identifies` if it sets the identifier of this host.
    pub(crate) fn record_command(&mut self, placed: &Placed, identifies: bool)
        ensures { self.new ≡ with_command self.old identifies placed.now }
    {
        if identifies && placed.code == codes::OK {
            self.identifying = Some(placed.ticket);
            self.host_identified = false;
        }
    }

    /// Whether a result of a poll is the answer to the last Set Features of the Host Identifier.
    fn is_identity_answer(&self, outcome: &Outcome) -> bool
        ensures { result ≡ is_identity_answer self.now.identifying outcome.now }
    {
        match self.identifying {
            Some(ticket) => outcome.code == codes::DONE && outcome.ticket == ticket,
            None => false,
        }
    }

    /// Learns whether the controller has the identifier of this host.
    fn learn_identity(&mut self, outcome: &Outcome)
        ensures { self.new ≡ with_identity self.old outcome.now }
    {
        if self.is_identity_answer(outcome) {
            self.identifying = None;
            self.host_identified = outcome.sct == 0 && outcome.sc == 0;
        }
    }

    /// Learns from this result of a poll, with its data in `bytes`, if it answers the last question or the last Set
    /// Features of the Host Identifier.
    pub(crate) fn learn(&mut self, outcome: &Outcome, bytes: &[u8])
        requires { 4096 ≤ length bytes.now }
        ensures { self.new ≡ learned self.old outcome.now bytes.now }
    {
        self.learn_answer(outcome, bytes);
        self.learn_identity(outcome);
    }

    /// Judges the answer to the last question, if this result of a poll is one with its data in `bytes`.
    fn learn_answer(&mut self, outcome: &Outcome, bytes: &[u8])
        requires { 4096 ≤ length bytes.now }
        ensures { self.new ≡ learned_of_question self.old outcome.now bytes.now }
    {
        if !self.is_answered(outcome) {
            return;
        }
        if let Some(question) = self.asked {
            self.asked = None;
            if outcome.len == 4096 {
                self.record_answer(question.nsid, bytes);
            }
        }
    }
}
