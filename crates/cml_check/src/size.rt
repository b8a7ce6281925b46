//! The size of a program.

/// How large a program is.
#[derive(Clone, Copy, PartialEq, Eq)]
pub struct Size {
    /// How many functions it has.
    pub functions: u32,
    /// How many statements it has, those inside branches and loops too. The `do` of a branch is not one.
    pub statements: u32,
}
