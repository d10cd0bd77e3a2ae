//! A client of a session, with what shows it earlier states.

use gr_rollback::Machine;
use gr_session::{DeskId, Session};

/// A client of a session.
pub struct Client {
    /// The session that it asks.
    pub session: Session,
    /// Its number, which `enrol` of the session gave.
    pub desk: DeskId,
    /// The text whose program the session debugs.
    pub source: Vec<u8>,
    /// A second machine of the program, which goes to where the first steps of the session's led. There is none before it is
    /// needed.
    pub follower: Option<Machine>,
}

// Written out, so that crates above call it and need not prove it again.
impl Drop for Client {
    fn drop(self) {
        let Client {
            session: _,
            desk: _,
            source: _,
            follower: _,
        } = self;
    }
}
