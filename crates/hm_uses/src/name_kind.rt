/// The kinds of names (Report, section 1.4).
#[derive(Clone, Copy, Debug, PartialEq, Eq)]
pub enum NameKind {
    Variable,
    Constructor,
    TypeVariable,
    TypeConstructor,
    ModuleName,
}
