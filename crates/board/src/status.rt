// The status word of a measuring block.
ghost use Rattle.std.specs.Prelude.{◌≡◌};
ghost use Rattle.board.specs.Status.{status_word};

// What the status word tells.
#[derive(Clone, Copy)]
pub struct Status {
    pub(crate) sequence: u8,
    pub(crate) heartbeat: bool,
    pub(crate) fault: bool,
    pub(crate) centred: bool,
    pub(crate) still: bool,
    pub(crate) tared: bool,
}

// The status word: sequence in bits 0 and 1, heartbeat 2, no fault 3, fault 4, centre of zero 5, moving 6, tare not 0 7.
impl From<Status> for u16 {
    ghost from_gives = { λ status word. word ≡ status_word status };

    fn from(status: Status) -> u16 {
        u16::from(status.sequence % 4)
            + 4 * u16::from(status.heartbeat)
            + 8 * u16::from(!status.fault)
            + 16 * u16::from(status.fault)
            + 32 * u16::from(status.centred)
            + 64 * u16::from(!status.still)
            + 128 * u16::from(status.tared)
    }
}
