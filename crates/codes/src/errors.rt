// The error codes of document 01, and where the error of each is placed.
ghost use Rattle.std.specs.Prelude.{◌≡◌};
ghost use Rattle.codes.specs.Errors.{number_of, place_of};

// What can go wrong with a field, in the order of document 01.
#[derive(Clone, Copy, PartialEq, Eq, Debug)]
pub enum FieldError {
    Resolver,
    NullForNonNull,
    ListTypeWithoutList,
    ListForNonListType,
    UndefinedType,
    InputObjectType,
    ObjectForLeafType,
    ObjectTypeUnknown,
    NotInUnion,
    NotImplementing,
    OtherObjectType,
    LeafForComposite,
    NotAnEnumValue,
    IntOverflow,
    LeafOfAnotherKind,
    NullArgument,
    InnerNull,
    NullVariable,
    MissingVariable,
    UndefinedInputType,
    UnknownKey,
    MissingInputField,
    CannotCoerce,
    MissingArgument,
}

// The kind of place that an error record has.
#[derive(Clone, Copy, PartialEq, Eq, Debug)]
pub enum PlaceKind {
    FirstField,
    ArgumentDefinition,
    Literal,
}

// A number that may be one of the codes. It stands beside the enum because document 01 asks for the error code type with its constants and each
// code's kind of place (docs/DECISIONS.md, 14); `place` answers for every number.
#[derive(Clone, Copy, PartialEq, Eq, Debug)]
pub struct ErrorCode {
    pub number: u32,
}

impl ErrorCode {
    pub const RESOLVER: u32 = 1;

    pub const NULL_FOR_NON_NULL: u32 = 2;

    pub const LIST_TYPE_WITHOUT_LIST: u32 = 3;

    pub const LIST_FOR_NON_LIST_TYPE: u32 = 4;

    pub const UNDEFINED_TYPE: u32 = 5;

    pub const INPUT_OBJECT_TYPE: u32 = 6;

    pub const OBJECT_FOR_LEAF_TYPE: u32 = 7;

    pub const OBJECT_TYPE_UNKNOWN: u32 = 8;

    pub const NOT_IN_UNION: u32 = 9;

    pub const NOT_IMPLEMENTING: u32 = 10;

    pub const OTHER_OBJECT_TYPE: u32 = 11;

    pub const LEAF_FOR_COMPOSITE: u32 = 12;

    pub const NOT_AN_ENUM_VALUE: u32 = 13;

    pub const INT_OVERFLOW: u32 = 14;

    pub const LEAF_OF_ANOTHER_KIND: u32 = 15;

    pub const NULL_ARGUMENT: u32 = 16;

    pub const INNER_NULL: u32 = 17;

    pub const NULL_VARIABLE: u32 = 18;

    pub const MISSING_VARIABLE: u32 = 19;

    pub const UNDEFINED_INPUT_TYPE: u32 = 20;

    pub const UNKNOWN_KEY: u32 = 21;

    pub const MISSING_INPUT_FIELD: u32 = 22;

    pub const CANNOT_COERCE: u32 = 23;

    pub const MISSING_ARGUMENT: u32 = 24;

    // "Place: argument definition for 16 and 24, the literal for 17 to 23, else the first field."
    #[tactic(auto, unfolding(crate::specs::Errors::place_of))]
    pub fn place(self) -> PlaceKind
        ensures { result ≡ place_of self.number }
    {
        match self.number {
            Self::NULL_ARGUMENT | Self::MISSING_ARGUMENT => PlaceKind::ArgumentDefinition,
            Self::INNER_NULL..=Self::CANNOT_COERCE => PlaceKind::Literal,
            _ => PlaceKind::FirstField,
        }
    }
}

// Document 01's number for an error.
impl From<FieldError> for u32 {
    ghost from_gives = { λ error number. number ≡ number_of error };

    fn from(error: FieldError) -> u32 {
        match error {
            FieldError::Resolver => ErrorCode::RESOLVER,
            FieldError::NullForNonNull => ErrorCode::NULL_FOR_NON_NULL,
            FieldError::ListTypeWithoutList => ErrorCode::LIST_TYPE_WITHOUT_LIST,
            FieldError::ListForNonListType => ErrorCode::LIST_FOR_NON_LIST_TYPE,
            FieldError::UndefinedType => ErrorCode::UNDEFINED_TYPE,
            FieldError::InputObjectType => ErrorCode::INPUT_OBJECT_TYPE,
            FieldError::ObjectForLeafType => ErrorCode::OBJECT_FOR_LEAF_TYPE,
            FieldError::ObjectTypeUnknown => ErrorCode::OBJECT_TYPE_UNKNOWN,
            FieldError::NotInUnion => ErrorCode::NOT_IN_UNION,
            FieldError::NotImplementing => ErrorCode::NOT_IMPLEMENTING,
            FieldError::OtherObjectType => ErrorCode::OTHER_OBJECT_TYPE,
            FieldError::LeafForComposite => ErrorCode::LEAF_FOR_COMPOSITE,
            FieldError::NotAnEnumValue => ErrorCode::NOT_AN_ENUM_VALUE,
            FieldError::IntOverflow => ErrorCode::INT_OVERFLOW,
            FieldError::LeafOfAnotherKind => ErrorCode::LEAF_OF_ANOTHER_KIND,
            FieldError::NullArgument => ErrorCode::NULL_ARGUMENT,
            FieldError::InnerNull => ErrorCode::INNER_NULL,
            FieldError::NullVariable => ErrorCode::NULL_VARIABLE,
            FieldError::MissingVariable => ErrorCode::MISSING_VARIABLE,
            FieldError::UndefinedInputType => ErrorCode::UNDEFINED_INPUT_TYPE,
            FieldError::UnknownKey => ErrorCode::UNKNOWN_KEY,
            FieldError::MissingInputField => ErrorCode::MISSING_INPUT_FIELD,
            FieldError::CannotCoerce => ErrorCode::CANNOT_COERCE,
            FieldError::MissingArgument => ErrorCode::MISSING_ARGUMENT,
        }
    }
}

impl FieldError {
    pub fn number(self) -> u32
        ensures { result ≡ number_of self }
    {
        u32::from(self)
    }
}
