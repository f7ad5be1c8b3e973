// What a sensor without fault reads in one tend.
use crate::load::Load;

#[derive(Clone, Copy)]
pub struct Reading {
    pub(crate) load: Load,
    pub(crate) still: bool,
}
