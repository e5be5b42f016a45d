//! Lists and mappings: whether a path of one of these kinds has a shape, and what stands in its shapes, asked
//! of a table of questions about the parts.
//!
//! - [`list_shape`]: a shape of a list path, length by length and then for all longer lists.
//! - [`map_shape`]: a shape of a mapping path, over the keys that its atoms name and all others.
//! - [`list_parts`] and [`map_parts`]: what stands at keys of such a path's shapes.
//!
//! All come to products: a part or none for each place, so that each unwanted atom is avoided somewhere.
//!
//! - `slots`: what may stand at one place, what an unwanted atom asks there, and how it is avoided there.
//! - `avoid`: parts for all places that avoid all unwanted atoms, atom by atom.
//! - `cells`: what stands at one of the places of such parts.
//! - `further`: parts behind all places that atoms tell apart, one for each atom that can be avoided so.
//! - `bases`: what may stand in marked shapes; `literals`: which atoms a path wants, and which not.
//! - `list_atoms`, `lists`, `list_items`: the places of lists; `mapping_atoms`, `mappings`, `map_members`: those
//!   of mappings, by key.
#![tactic(auto)]

mod avoid;
mod bases;
mod cells;
mod further;
mod list_atoms;
mod list_items;
mod lists;
mod literals;
mod map_members;
mod mapping_atoms;
mod mappings;
mod slots;

pub use list_items::list_parts;
pub use lists::list_shape;
pub use map_members::map_parts;
pub use mappings::map_shape;
