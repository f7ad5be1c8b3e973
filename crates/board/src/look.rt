// What look tells of a board.
#[derive(Clone, Copy, PartialEq, Eq, Debug)]
pub struct Look {
    // The command word that is open, if any.
    pub open: Option<u16>,
    pub zero: i32,
    pub tare: i32,
    pub deviation: i64,
}
