//! How far a connection is with its Connect.

ghost use Rattle.std.specs.Prelude.{◌≡◌};
ghost use Rattle.nvme_capsules.specs.Capsules.{stage_of};

use nvme_fabrics::Session;

/// How far a connection is with its Connect.
#[derive(Clone, Copy)]
pub enum ConnectStage {
    /// Its Connect has not succeeded.
    NotConnected,
    /// Its host has to authenticate itself.
    Authenticating,
    /// It is a queue, or was one.
    Connected,
}

impl ConnectStage {
    /// How far a connection is that is this.
    pub fn of(session: &Session) -> ConnectStage
        ensures { result ≡ stage_of session.now }
    {
        match session {
            Session::NotConnected => ConnectStage::NotConnected,
            Session::Authenticating(_, _) => ConnectStage::Authenticating,
            _ => ConnectStage::Connected,
        }
    }
}
