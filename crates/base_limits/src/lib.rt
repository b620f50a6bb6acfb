// The limits of documents 01 and 02 in their order, and the sizes that follow from them. specs/Limits has each under the same name,
// spelled `most_fields` for MOST_FIELDS; `kind_count` and `atom_kind_count` are KINDS and ATOM_KINDS.
#![tactic(auto)]

// ---- limits

// "A rule is one to four fields"; so is a slip.
pub const MOST_FIELDS: usize = 4;
// "A field is one to 16 terms".
pub const MOST_TERMS: usize = 16;
// "one to ten digits, value 0 to 2147483647".
pub const MOST_DIGITS: usize = 10;

pub const LARGEST_INTEGER: u32 = 2147483647;
// Document 02: "its value may go down to -2147483648": the magnitude of the lowest.
pub const LOWEST_INTEGER: u32 = 2147483648;
// "a string: 0 to 15 bytes".
pub const LONGEST_STRING: usize = 15;
// "a number 0 to 15".
pub const LARGEST_NUMBER: u8 = 15;
// The types: "`i` integer, `s` string, `a` atom, `l` list"; and those below list.
pub const KINDS: usize = 4;

pub const ATOM_KINDS: usize = 3;
// Of a slip "up to 64 terms a field".
pub const MOST_ITEMS: usize = 64;
// Document 02: "The whole text may have 4,096 bytes".
pub const MOST_RULE_BYTES: usize = 4096;
// Of a slip: "1: more than 8,192 bytes, place 8192".
pub const MOST_SLIP_BYTES: usize = 8192;
// Of an entry: "their numbers may reach 31 and its fields 31 terms". (Code needs the second alone.)
pub const ENTRY_TERMS: usize = 31;
// "`too long B` where B bytes exceed its 65,536".
pub const MOST_LIST_BYTES: usize = 65536;
// Document 02: "and a line for `pairs` 8,193", which is two of the longest rules and the tab.
pub const PAIR_LINE: usize = MOST_RULE_BYTES + 1 + MOST_RULE_BYTES;
// Document 02: "Rules come as a book of up to 16".
pub const MOST_RULES: usize = 16;

// ---- numbers of variables, and the places of variables by type and number

pub const NUMBERS_OF_SIDE: usize = LARGEST_NUMBER as usize + 1;
// "a right-side variable counting 16 above its number".
pub const NUMBERS_OF_PAIR: usize = NUMBERS_OF_SIDE + NUMBERS_OF_SIDE;
// Those of the types below list, and all.
pub const ATOM_PLACES: usize = ATOM_KINDS * NUMBERS_OF_SIDE;

pub const VARIABLE_PLACES: usize = KINDS * NUMBERS_OF_SIDE;

// ---- the places of terms by field

pub const FIELD_PLACES: usize = MOST_TERMS;

pub const RULE_PLACES: usize = MOST_FIELDS * FIELD_PLACES;

pub const PAIR_PLACES: usize = RULE_PLACES + RULE_PLACES;
// Behind them the list variables: those of an entry by field, those of a search by number.
pub const LIST_ITEMS: usize = NUMBERS_OF_PAIR;

pub const PAIR_ITEMS: usize = PAIR_PLACES + LIST_ITEMS;
// Both rules' fields.
pub const PAIR_FIELDS: usize = MOST_FIELDS + MOST_FIELDS;

// ---- the longest plain texts

// A string with its quotes.
pub const LONGEST_TERM: usize = 1 + LONGEST_STRING + 1;
// Each term with a separator but the last, and each field.
pub const LONGEST_FIELD: usize = MOST_TERMS * (LONGEST_TERM + 1) - 1;

pub const LONGEST_SIDE: usize = MOST_FIELDS * (LONGEST_FIELD + 1) - 1;
// Both sides with `=>` between them.
pub const LONGEST_RULE: usize = LONGEST_SIDE + 2 + LONGEST_SIDE;

pub const LONGEST_SLIP_FIELD: usize = MOST_ITEMS * (LONGEST_TERM + 1) - 1;

pub const LONGEST_SLIP: usize = MOST_FIELDS * (LONGEST_SLIP_FIELD + 1) - 1;

// ---- lines

// The longest rule, the tab, the longest slip.
pub const SLIP_LINE: usize = MOST_RULE_BYTES + 1 + MOST_SLIP_BYTES;
// An entry's items in one row.
pub const ENTRY_PLACES: usize = MOST_FIELDS * ENTRY_TERMS;
// Bounds on the parts of an entry's line: a field, or a list variable's value, each term with its separator.
pub const RUN_BOUND: usize = ENTRY_TERMS * (LONGEST_TERM + 1);

pub const FIELDS_BOUND: usize = MOST_FIELDS * (RUN_BOUND + 1);
// A blank, the side's sign, the variable and `=`.
pub const NAME_BOUND: usize = 2 + LONGEST_TERM + 1;
// A rule's bindings: those of its atom variables and of its list variables.
pub const BINDINGS_BOUND: usize = ATOM_PLACES * (NAME_BOUND + LONGEST_TERM)
    + NUMBERS_OF_SIDE * (NAME_BOUND + RUN_BOUND);
// The line of an entry: none has more bytes.
pub const ENTRY_LINE: usize = FIELDS_BOUND + BINDINGS_BOUND + BINDINGS_BOUND + 1;
