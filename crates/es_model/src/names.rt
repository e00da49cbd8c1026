use js_value::Units;

/// A name where it is bound, referred to or exported (ECMA-262, 13.1). `at` is the place of its
/// first byte in the module's text, from 0.
#[derive(Drop)]
pub struct Identifier {
    pub at: u32,
    pub name: Units,
}

/// `taken as given` in a list of imports or exports: the name that is taken, and the one that it
/// gets. Where one name stands alone it is both. In `import given from "m"` the name taken is
/// `default`, at the place of `given`.
#[derive(Drop)]
pub struct Pair {
    pub taken: Identifier,
    pub given: Identifier,
}
