/// Whether a semicolon stands in the text or is missing (own rule on where it may be).
#[derive(Clone, Copy, PartialEq, Eq)]
pub enum Semi {
    Written,
    Missing,
}

/// What kind of function a function is. The last two are the constructors of a class: `Derived`
/// where the class has a parent.
#[derive(Clone, Copy, PartialEq, Eq)]
pub enum FunctionKind {
    Plain,
    Arrow,
    Method,
    Getter,
    Setter,
    Base,
    Derived,
}

/// What kind of member of a class or an object literal a member is. `Value` is `key: value` and
/// `Short` a name alone; these two stand in object literals only.
#[derive(Clone, Copy, PartialEq, Eq)]
pub enum MemberKind {
    Value,
    Short,
    Method,
    Getter,
    Setter,
}

/// `!`, `-`, `+` and `~`.
#[derive(Clone, Copy, PartialEq, Eq)]
pub enum UnaryOperator {
    Not,
    Negate,
    Plus,
    BitNot,
}

/// `+ - * / % ** & | ^ << >> >>> < > <= >= == != === !==`, in this order.
#[derive(Clone, Copy, PartialEq, Eq)]
pub enum BinaryOperator {
    Add,
    Subtract,
    Multiply,
    Divide,
    Remainder,
    Power,
    BitAnd,
    BitOr,
    BitXor,
    ShiftLeft,
    ShiftRight,
    ShiftRightUnsigned,
    Less,
    Greater,
    LessOrEqual,
    GreaterOrEqual,
    Equal,
    NotEqual,
    StrictEqual,
    StrictNotEqual,
}
