// The editing session's bytes, as a terminal program keeps them.
use crate::{Counts, Sheet};

#[repr(C)]
#[derive(Clone, Copy, Debug, PartialEq, Eq)]
pub struct Session {
    pub agents: usize,
    pub sheet: Sheet,
    pub standing: usize,
    pub total: usize,
    pub log: [u8; Session::LOG],
}

impl Session {
    pub const EDITS: usize = 200;
    // An edit's kind, its step's number and a name for each of the most agents.
    pub const EDIT: usize = Counts::AGENTS + 2;

    pub const LOG: usize = Session::EDITS * Session::EDIT;
}
