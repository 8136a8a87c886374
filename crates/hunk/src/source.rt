// What a suspect names: a commit.
#[derive(Clone, Copy, Debug, PartialEq, Eq, Default)]
pub struct Source {
    pub commit: u32,
}
