/// How many levels of conditions are looked at: 131, of which `im_sqlmodel`'s law `levels_are_enough` says that they are
/// enough. An OR-list, an AND-list and a comparison are three, each of 64 parentheses is two more, and a NOT one.
pub(crate) const MOST_LEVELS: usize = 131;
