ghost use Rattle.std.specs.Prelude.{◌≡◌};
ghost use Rattle.im_table.specs.Views.{no_roles};
ghost use Rattle.im_table.specs.Passes.{journal_role, index_role, book_role, tree_role};

/// Who may move which word. Each role is held by one pass at a time.
#[derive(Clone, Copy)]
pub struct Roles {
    /// Moves the words durable and failed.
    pub journal: bool,
    /// Moves the word indexed.
    pub index: bool,
    /// Moves the word placed, and has seen the whole list.
    pub book: bool,
    /// Moves the word linked.
    pub tree: bool,
}

/// No role: what the pass of a caller has.
pub fn no_roles() -> Roles
    ensures { result ≡ no_roles }
{
    Roles {
        journal: false,
        index: false,
        book: false,
        tree: false,
    }
}

/// The role of the journal alone.
pub fn journal_role() -> Roles
    ensures { result ≡ journal_role }
{
    Roles {
        journal: true,
        index: false,
        book: false,
        tree: false,
    }
}

/// The role of the index alone.
pub fn index_role() -> Roles
    ensures { result ≡ index_role }
{
    Roles {
        journal: false,
        index: true,
        book: false,
        tree: false,
    }
}

/// The role of the book alone.
pub fn book_role() -> Roles
    ensures { result ≡ book_role }
{
    Roles {
        journal: false,
        index: false,
        book: true,
        tree: false,
    }
}

/// The role of the tree alone.
pub fn tree_role() -> Roles
    ensures { result ≡ tree_role }
{
    Roles {
        journal: false,
        index: false,
        book: false,
        tree: true,
    }
}
