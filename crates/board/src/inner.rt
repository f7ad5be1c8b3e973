// All of a board that is not its weigher.
use crate::block::Block;
use crate::setting::Settings;

#[derive(Clone, Copy)]
pub struct Inner {
    pub(crate) settings: Settings,
    pub(crate) block: Block,
    // What the last weight test found.
    pub(crate) deviation: i64,
    pub(crate) heartbeat: bool,
}
