//! When a session's record is lawful, and nothing that runs.
//!
//! `LawfulSession` is said of one session on the list of the items that it sees, whatever other sessions there are: each
//! slot's client is at a state that the item had, lines and streams are numbered without a gap, and nothing is given up
//! that wasn't given. `ClientsDecode` says that a client decodes this from the bytes of the lines, and `LawfulAlone` says
//! all of it of a session by itself. MSGDONE and MSGFAIL aren't read yet, so decoding is shown of sessions that have no
//! such line. For each mode there is what is lawful of a slot: `LawfulMerge`, `LawfulRaw`, `LawfulDistinct` and
//! `LawfulCommand`.
//!
//! The lemmas in `proofs/` say what keeps a session lawful: a history that grows, an enqueue, a cut that is passed, a line
//! that is numbered, an add, a delete, what a client is told of its message, a bind, a loss and an end. ls_laws stands on
//! them for the worlds of scripts. `OneSession` has the small steps of a turn for a session by itself.
#![tactic(auto)]
