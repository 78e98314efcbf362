// jetdb's four name tables as one directory: all ids with where each name starts, and the names end to end.
// A program that looks many names up has both arrays once, from their functions here, and lends them.
#![tactic(auto)]

mod tables; // tables.rt: the constants

ghost use Rattle.std.specs.Prelude.{◌≡◌};
ghost use Rattle.nametables.specs.Directory.{all_names, index_of, letters_of};

// Where the rows of each table begin in the directory, and where the last ones end.
pub const TEXT: usize = tables::TEXT;

pub const NUMBER: usize = tables::NUMBER;

pub const BYTES: usize = tables::BYTES;

pub const CONTROL_TYPE: usize = tables::CONTROL_TYPE;

pub const END: usize = tables::END;

// The ids; then where each name starts, and where the last one ends.
// Kept: one array of words, as README has callers lend it.
pub fn index() -> [u32; 2 * END + 1]
    ensures { result ≡ index_of all_names }
{
    tables::INDEX
}

// The names.
pub fn letters() -> [u8; tables::SIZE]
    ensures { result ≡ letters_of all_names }
{
    tables::LETTERS
}
