//! How members are taken.
ghost use Rattle.std.specs.Prelude.{◌≡◌};
ghost use Rattle.check_words.specs.Members.{container_kind as kind_of_container, index_kind as kind_of_index, read_of as read_by};

use check_words::Access;
use expr_needs::Kind;
use typed_tree::Read;

/// The kind of what a member is taken of.
pub fn container_kind(access: Access) -> Kind
    ensures { result ≡ kind_of_container access }
{
    match access {
        Access::Char => Kind::Text,
        Access::Item => Kind::AnyList,
        Access::Key => Kind::AnyMapping,
    }
}

/// The kind of its index or key.
pub fn index_kind(access: Access) -> Kind
    ensures { result ≡ kind_of_index access }
{
    match access {
        Access::Char | Access::Item => Kind::Integer,
        Access::Key => Kind::Text,
    }
}

/// The read by which it is taken.
pub fn read_of(access: Access) -> Read
    ensures { result ≡ read_by access }
{
    match access {
        Access::Char => Read::Char,
        Access::Item => Read::Item,
        Access::Key => Read::Key,
    }
}
