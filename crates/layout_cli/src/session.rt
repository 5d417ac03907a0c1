// The session that the programs hold.

/// A session over the engine's own tableau.
pub type Session = session_undo::Session<corner::Corner>;
