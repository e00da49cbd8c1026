/// How many bytes the name and the content of a file have.
#[derive(Clone, Copy)]
pub struct Extent {
    pub name: usize,
    pub content: usize,
}

/// Which file it is, counted from 0, and where its content begins and ends.
#[derive(Clone, Copy)]
pub struct Place {
    pub at: usize,
    pub start: usize,
    pub end: usize,
}
