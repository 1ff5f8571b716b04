use crate::reader::format::member_kind::MemberKind;
use crate::reader::format::name::Name;

/// A member that a line may have.
#[derive(Clone, Copy)]
pub(crate) struct Member {
    pub(crate) name: Name,
    pub(crate) kind: MemberKind,
    /// Whether it has to stand.
    pub(crate) needed: bool,
}
