/// A pointer of a segment: to the twin behind it or before it, or to the first or last of its children of one child
/// type, which is named by its code.
#[derive(Clone, Copy, Debug, PartialEq, Eq)]
pub enum Pointer {
    TwinForward,
    TwinBackward,
    FirstChild(u8),
    LastChild(u8),
}
