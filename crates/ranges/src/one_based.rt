// Lines as people ask for them: from one, the last included.
#[derive(Clone, Copy, Debug, PartialEq, Eq)]
pub struct OneBased {
    pub first: u32,
    pub last: u32,
}
