//! What the numbers of a body are compared with.

/// How many registers, argument registers and try items a body has, how many entries the tables have that its
/// instructions name, and how many entries of lists a file may still have: `items` is what is left of that limit.
#[derive(Clone, Copy, Drop)]
pub struct Sizes {
    pub registers: u16,
    pub ins: u16,
    pub tries: u16,
    pub strings: u32,
    pub types: u32,
    pub fields: u32,
    pub methods: u32,
    pub items: u32,
}
