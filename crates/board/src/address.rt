// Where an acyclic read reads: a class, an instance of it, and an attribute.
#[derive(Clone, Copy, PartialEq, Eq, Debug)]
pub struct Address {
    pub class: u16,
    pub instance: u8,
    pub attribute: u8,
}
