/// Where what a mention means is held (own rule): at a place of its function, itself or in a box; in
/// its function's outer list, or there as an import; a global by its row; or nowhere.
#[derive(Clone, Copy)]
pub enum Place {
    Local(u32),
    Boxed(u32),
    Outer(u32),
    Import(u32),
    Global(u8),
    Unbound,
}

/// How a function gets an entry of its outer list when it is made: from the box at a place of the
/// function round it, or from that function's outer list.
#[derive(Clone, Copy)]
pub struct Capture {
    pub outer: bool,
    pub at: u32,
}
