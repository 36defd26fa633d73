//! What a library declares.

use dex_base::Text;
use seq::Seq;

/// A virtual method that a class declares: its name, and its proto as `(PARAMETERS)RESULT`.
#[derive(Drop)]
pub struct LibraryMethod {
    pub name: Text,
    pub proto: Text,
}

/// A class that a library declares: its descriptor, those of its superclass and its interfaces, and its virtual methods.
#[derive(Drop)]
pub struct LibraryClass {
    pub name: Text,
    pub above: Seq<Text>,
    pub methods: Seq<LibraryMethod>,
}

/// The classes of a library. A descriptor may be declared more than once, and each declaration counts.
#[derive(Drop)]
pub struct Library {
    pub classes: Seq<LibraryClass>,
}
