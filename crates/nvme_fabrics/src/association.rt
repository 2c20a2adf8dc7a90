//! The association of a host with a controller.

ghost use Rattle.std.specs.Prelude.{◌≡◌, ◌<◌, ◌==◌};
ghost use Rattle.nvme_fabrics.specs.Associations as def;

use crate::answer::{Answer, check};
use crate::request::{Request, text_of};

/// A host's queues at a controller.
#[derive(Clone, Copy)]
pub struct Association {
    /// HOSTID and HOSTNQN of the Connect that made it.
    pub host_id: u128,
    pub host_nqn: [u8; 256],
    /// The connection of each queue, that of the Admin Queue first.
    pub queues: [Option<u64>; 5],
}

/// A controller: its host by the configuration, or `None` if there is no such controller, and its association.
#[derive(Clone, Copy)]
pub struct Controller {
    pub host: Option<u128>,
    pub association: Option<Association>,
}

impl Association {
    /// The connection of a queue.
    pub fn connection(&self, qid: u16) -> Option<u64>
        ensures { result ≡ def.connection_at self.now qid }
    {
        if qid <= 4 {
            self.queues.get(usize::from(qid)).copied().flatten()
        } else {
            None
        }
    }

    /// Whether its host may connect this I/O queue; else the answer of the first rule that is broken.
    #[tactic(auto, unfolding(crate::specs::Associations::io_fits))]
    fn admits(&self, request: &Request, is_enabled: bool) -> Result<(), Answer>
        ensures { result ≡ def.io_fits self.now request.now is_enabled }
    {
        check(Answer::in_data(0), self.host_id == request.host_id)?;
        check(
            Answer::in_data(512),
            is_same_text(&self.host_nqn, &request.host_nqn),
        )?;
        check(
            Answer::of(0, 0x0c),
            self.connection(request.qid).is_none() && is_enabled,
        )
    }
}

impl Controller {
    /// Whether it is a controller of this host.
    pub fn is_of(&self, host_id: u128) -> bool
        ensures { result ≡ def.is_of host_id self.now }
    {
        match self.host {
            Some(host) => host == host_id,
            None => false,
        }
    }

    /// Whether a request may have its queue here; else the answer of the first rule that is broken.
    #[tactic(auto, unfolding(crate::specs::Associations::fits))]
    pub fn admits(&self, request: &Request, is_enabled: bool) -> Result<(), Answer>
        ensures { result ≡ def.fits self.now request.now is_enabled }
    {
        if request.qid == 0 {
            check(Answer::in_data(16), self.is_of(request.host_id))?;
            return check(Answer::of(1, 0x81), self.association.is_none());
        }
        match &self.association {
            Some(association) => association.admits(request, is_enabled),
            None => Err(Answer::in_data(16)),
        }
    }

    /// The same after a connection has become the queue of a request.
    pub(crate) fn with_queue(&self, request: &Request, connection: u64) -> Controller
        ensures { result ≡ def.with_queue self.now request.now connection }
    {
        if request.qid == 0 {
            let queues = [Some(connection), None, None, None, None];
            let Request {
                host_id,
                host_nqn,
                ..
            } = *request;
            return Controller {
                association: Some(Association {
                    host_id,
                    host_nqn,
                    queues,
                }),
                ..*self
            };
        }
        self.with_connection(request.qid, Some(connection))
    }

    /// The same with this connection of a queue, if there is an association.
    pub(crate) fn with_connection(&self, qid: u16, connection: Option<u64>) -> Controller
        ensures { result ≡ def.with_connection self.now qid connection }
    {
        let mut changed = *self;
        if let Some(association) = &mut changed.association {
            if qid <= 4 {
                association.queues[usize::from(qid)] = connection;
            }
        }
        changed
    }

    /// The same without its I/O queues.
    pub(crate) fn without_io_queues(&self) -> Controller
        ensures { result ≡ def.without_io_queues self.now }
    {
        let mut changed = *self;
        if let Some(association) = &mut changed.association {
            association.queues = [association.queues[0], None, None, None, None];
        }
        changed
    }
}

/// Whether two fields have the same text.
fn is_same_text(one: &[u8], other: &[u8]) -> bool
    ensures { result ≡ def.is_same_text one.now other.now }
{
    text_of(one) == text_of(other)
}
