ghost use Rattle.std.specs.Prelude.{◌≡◌};
ghost use Rattle.tablelines.specs.Faults.{number_lem};

// Why a text makes no table. `tablewhy` has the words, specs/Faults.antt the same list by number.
#[derive(Clone, Copy, PartialEq, Eq)]
pub enum Fault {
    // Of the lines together.
    NoLayout = 1,
    LayoutFirst = 2,
    LayoutTwice = 3,

    // Of the words of a line; 17, too, though it stands among the rules.
    UnknownWord = 4,
    TwoDigits = 5,
    FourDigits = 6,
    ManyWords = 7,
    UnknownKind = 17,

    // Of a table's rules.
    HeaderLate = 8,
    HeaderOrder = 9,
    ManyHeaders = 10,
    ScopeOrder = 11,
    ManyScopes = 12,
    RowEarly = 13,
    IdOrder = 14,
    IdHigh = 15,
    TargetHigh = 16,

    // Of the text as a whole.
    LongText = 18,
    NoRoom = 19,
}

impl Fault {
    pub fn number(self) -> u32
        ensures { result ≡ number_lem self }
    {
        self as u32
    }
}
