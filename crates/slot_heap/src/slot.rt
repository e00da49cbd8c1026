//! Slots and what stands in them.

ghost use Rattle.std.specs.Prelude.{◌≡◌, ◌<◌};
ghost use Rattle.slot_heap.specs.Slot.{byte_of, tag_of_value, value_in, with_value, word_of_value};

/// The address of a thing, counted in slots from 1; 0 for none.
#[derive(Clone, Copy, Debug, PartialEq, Eq)]
pub struct Ref(pub u32);

/// The address of a slot, counted from 1; 0 for none.
#[derive(Clone, Copy, Debug, PartialEq, Eq)]
pub struct SlotAt(pub u32);

/// One slot (own rule).
///
/// `next` is the address of the slot that follows in its chain, or 0. `flags` is 8 times the tag of
/// the value plus three bits, whose meaning is the kind's. `value` is eight bytes, the first the
/// highest.
#[derive(Clone, Copy, Debug, PartialEq, Eq)]
pub struct Slot {
    pub next: u32,
    pub key: u16,
    pub kind: u8,
    pub flags: u8,
    pub value: u64,
    pub last: u32,
}

/// A language value (ECMA-262 6.1), as a slot keeps it.
///
/// `Name` is a string that is a name, by its number. `Text` is another string: the place of its
/// first 16-bit unit, from 0, and its length in units. `Thing` is an object.
#[derive(Clone, Copy, Debug, PartialEq, Eq)]
pub enum Value {
    Undefined,
    Null,
    Bool(bool),
    Number(i64),
    Name(u16),
    Text(u32, u32),
    Thing(Ref),
}

/// What a thing is: objects by their class, the cell of a captured binding, and the mark that the
/// two resolving functions of a promise share (ECMA-262 27.2.1.3).
#[derive(Clone, Copy, Debug, PartialEq, Eq)]
pub enum Kind {
    Object,
    Array,
    Script,
    Builtin,
    Error,
    Promise,
    Cell,
    Mark,
}

/// A property key (ECMA-262 6.1.7): an array index, a name that is no index's text, or a text or a
/// number's text that is neither an index nor a name.
#[derive(Clone, Copy, Debug, PartialEq, Eq)]
pub enum Key {
    Index(u32),
    Name(u16),
    Text(Value),
    Number(i64),
}

/// A job that waits (ECMA-262 9.5): kind 0 fulfils and 1 rejects, with the handler, the derived
/// promise and the argument; kind 2 resolves by a thenable, with the promise, the thenable and its
/// `then`.
#[derive(Clone, Copy, Debug, PartialEq, Eq)]
pub struct Job {
    pub kind: u8,
    pub values: [Value; 3],
}

impl Kind {
    /// The byte of the kind in a head.
    pub fn byte(self) -> u8
        ensures { result ≡ byte_of self }
    {
        match self {
            Kind::Object => 1,
            Kind::Array => 2,
            Kind::Script => 3,
            Kind::Builtin => 4,
            Kind::Error => 5,
            Kind::Promise => 6,
            Kind::Cell => 7,
            Kind::Mark => 8,
        }
    }
}

impl Slot {
    /// The value that the slot holds, where its tag is one of 0 to 7.
    pub fn value(self) -> Value
        requires tag { self.flags < 64 }
        ensures { result ≡ value_in self }
    {
        match self.flags / 8 {
            0 => Value::Undefined,
            1 => Value::Null,
            2 => Value::Bool(false),
            3 => Value::Bool(true),
            4 => Value::Number(self.value.cast_signed()),
            5 => Value::Name((self.value % 0x1_0000) as u16),
            6 => Value::Text(
                (self.value / 0x1_0000_0000) as u32,
                (self.value % 0x1_0000_0000) as u32,
            ),
            _ => Value::Thing(Ref((self.value % 0x1_0000_0000) as u32)),
        }
    }

    /// The slot with another value and its tag. The three bits of the flags stay.
    pub fn with(self, value: Value) -> Slot
        ensures { result ≡ with_value self value }
    {
        Slot {
            flags: 8 * value.tag() + self.flags % 8,
            value: value.word(),
            ..self
        }
    }
}

impl Value {
    // The tag of a slot that holds the value.
    fn tag(self) -> u8
        ensures tag { result ≡ tag_of_value self }
        ensures small { result < 8 }
    {
        match self {
            Value::Undefined => 0,
            Value::Null => 1,
            Value::Bool(false) => 2,
            Value::Bool(true) => 3,
            Value::Number(_) => 4,
            Value::Name(_) => 5,
            Value::Text(_, _) => 6,
            Value::Thing(_) => 7,
        }
    }

    // The eight bytes of a slot that holds the value.
    fn word(self) -> u64
        ensures { result ≡ word_of_value self }
    {
        match self {
            Value::Number(number) => number.cast_unsigned(),
            Value::Name(name) => name as u64,
            Value::Text(at, length) => at as u64 * 0x1_0000_0000 + length as u64,
            Value::Thing(r) => r.0 as u64,
            Value::Undefined | Value::Null | Value::Bool(_) => 0,
        }
    }
}
