//! Whether the keys of a view that begin with octet 00 are SQL's, and after which transaction of a history they first aren't; and the law that
//! statements, which are im_sql, leave them so.
#![tactic(auto)]

mod entered;
mod found;
mod hanging;
pub mod kept;
pub mod laws;
mod marked;
mod numbered;
mod own;
mod parts;
mod said;
mod settled;
mod sounding;
mod stepping;
