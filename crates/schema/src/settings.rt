// How rows are read.

// The four yes-or-no settings of a shelf.
#[derive(Clone, Copy, Default, PartialEq, Eq, Debug)]
pub struct Settings {
    // Booleans and numbers are taken as text where text is wanted.
    pub coerce: bool,
    // An object's unknown names are refused.
    pub strict: bool,
    // A wrong element makes a null where one may stand.
    pub lenient: bool,
    // The rows of structs are lists, not objects.
    pub list_rows: bool,
}
