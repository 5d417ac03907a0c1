// The session that the tests hold.

/// A session over the engine's own tableau.
pub type Session = session_undo::Session<corner::Corner>;
