// The kinds of frames, each once, by the definitions' names (`Line.agents_kind` to `Line.step_kind`).
#[derive(Clone, Copy, Debug, PartialEq, Eq)]
pub struct Kind {}

impl Kind {
    pub const AGENTS: u8 = 0xA1;

    pub const FLUENT: u8 = 0xA2;

    pub const KNOWLEDGE: u8 = 0xA3;

    pub const ENTRY: u8 = 0xA4;

    pub const EXECUTABLE: u8 = 0xA5;

    pub const EFFECT: u8 = 0xA6;

    pub const STATIC: u8 = 0xA7;

    pub const CONCURRENCY: u8 = 0xA8;

    pub const GOAL: u8 = 0xA9;

    pub const SUPPLEMENT: u8 = 0xAF;

    pub const STEP: u8 = 0xB1;
}
