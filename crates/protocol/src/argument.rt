//! The arguments of a message and their kinds.

ghost use Rattle.std.specs.Prelude.{◌≡◌, length};
ghost use Rattle.protocol.specs.Arguments.{same_type, type_of, agrees};

/// Whether an argument may be null.
#[derive(Clone, Copy, Debug, PartialEq, Eq)]
pub enum AllowNull {
    Yes,
    No,
}

/// The kinds of argument that the wire knows.
#[derive(Clone, Copy, Debug, PartialEq, Eq)]
pub enum ArgumentType {
    Int,
    Uint,
    /// A signed number that counts in 256ths.
    Fixed,
    Str(AllowNull),
    Object(AllowNull),
    NewId,
    Array,
    Fd,
}

impl ArgumentType {
    /// Whether two kinds are the same; whether null is allowed does not count.
    pub fn same_type(self, other: ArgumentType) -> bool
        ensures { result ≡ same_type self other }
    {
        self == other
            || matches!(
                (self, other),
                (ArgumentType::Str(_), ArgumentType::Str(_))
                    | (ArgumentType::Object(_), ArgumentType::Object(_))
            )
    }
}

/// A part of the text room that goes with the arguments.
#[derive(Clone, Copy, Debug, PartialEq, Eq)]
pub struct Span {
    pub start: usize,
    pub len: usize,
}

/// An argument. A string or an array lies in the text room that goes with it.
// No `==`: two spans tell nothing of two texts, and handles are compared in a table.
#[derive(Clone, Copy, Debug)]
pub enum Argument<Id> {
    Int(i32),
    Uint(u32),
    Fixed(i32),
    Str(Option<Span>),
    Object(Id),
    NewId(Id),
    Array(Span),
    Fd(u32),
}

impl<Id: Copy> Argument<Id> {
    /// The kind of an argument; a string or an object counts as one that may be null.
    // By name and no `From`: that a kind was lost, whether null is allowed, should be seen at the call.
    pub fn get_type(&self) -> ArgumentType
        ensures { result ≡ type_of self.now }
    {
        match *self {
            Argument::Int(_) => ArgumentType::Int,
            Argument::Uint(_) => ArgumentType::Uint,
            Argument::Fixed(_) => ArgumentType::Fixed,
            Argument::Str(_) => ArgumentType::Str(AllowNull::Yes),
            Argument::Object(_) => ArgumentType::Object(AllowNull::Yes),
            Argument::NewId(_) => ArgumentType::NewId,
            Argument::Array(_) => ArgumentType::Array,
            Argument::Fd(_) => ArgumentType::Fd,
        }
    }
}

/// Whether the arguments are as many as the signature says and of its kinds.
pub fn check_for_signature<Id: Copy>(signature: &[ArgumentType], args: &[Argument<Id>]) -> bool
    ensures { result ≡ agrees signature.now args.now }
{
    signature.len() == args.len() && kinds_agree(signature, args)
}

// The kinds of as many arguments, place by place.
fn kinds_agree<Id: Copy>(signature: &[ArgumentType], args: &[Argument<Id>]) -> bool
    requires { length signature.now ≡ length args.now }
    ensures { result ≡ agrees signature.now args.now }
{
    signature
        .iter()
        .zip(args)
        .all(|(kind, arg)| arg.get_type().same_type(*kind))
}
