// The tables lent, all together: fifteen slices and the number of the root type.
#[derive(Clone, Copy)]
pub struct Tables<'a> {
    pub pool: &'a [u8],
    pub names: &'a [u32],
    pub type_refs: &'a [u32],
    pub types: &'a [u32],
    pub members: &'a [u32],
    pub fields: &'a [u32],
    pub arguments: &'a [u32],
    pub sets: &'a [u32],
    pub selections: &'a [u32],
    pub given: &'a [u32],
    pub fragments: &'a [u32],
    pub nodes: &'a [u32],
    pub literals: &'a [u32],
    pub variables: &'a [u32],
    pub answers: &'a [u32],
    pub root: u32,
}
