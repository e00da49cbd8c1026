/// Numbers of slots, of 16-bit units and of names: what is used, or what there is room for.
#[derive(Clone, Copy, Debug, PartialEq, Eq)]
pub struct Room {
    pub slots: u32,
    pub units: u32,
    pub names: u32,
}

/// The limit that an event would pass.
#[derive(Clone, Copy, Debug, PartialEq, Eq)]
pub enum Full {
    Slots,
    Units,
    Names,
}
