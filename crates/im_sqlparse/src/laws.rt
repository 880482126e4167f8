//! What holds of the grammar's rules alone.

ghost use Rattle.std.specs.Prelude.{◌≡◌, ℕ, Bool, true, false, Ok};
ghost use Rattle.im_sqlparse.specs.declared.kinds.Kind.TheVariants as k;
ghost use Rattle.im_sqlparse.specs.Conditions.{conjunction, factor};
ghost use Rattle.im_sqlparse.specs.declared.statements.Form.{Form};
ghost use Rattle.im_sqlparse.specs.Formed.{IsStatement};
ghost use Rattle.im_sqlparse.specs.Lex.{Text};
ghost use Rattle.im_sqlparse.specs.Lists.{IsWholeList};
ghost use Rattle.im_sqlparse.specs.Statements.{order_term, statement_of};
ghost use Rattle.im_sqlparse.specs.Values.{column, row, value};

/// No list with a mark between its items ends at its bound: each is one item, and where its mark comes next a list
/// again, however long it is. Of the columns of CREATE TABLE, whose rule has a bound of its own, no law speaks.
pub fn lists_are_whole()
    ensures columns { (rev : Bool) → IsWholeList k.Comma (column rev) }
    ensures values { IsWholeList k.Comma value }
    ensures rows { IsWholeList k.Comma row }
    ensures terms { IsWholeList k.Comma order_term }
    ensures factors { (rev : Bool) (depth : ℕ) → IsWholeList k.And (factor rev depth) }
    ensures conjunctions { (rev : Bool) (depth : ℕ) → IsWholeList k.Or (conjunction (factor rev depth)) }
{}

/// Whatever is read is formed: its names are names, in lower case and no keywords, its lists aren't empty, a table has
/// at most 64 columns, its numbers are in their ranges, and NOT and parentheses stand in one another at most 64 deep.
pub fn what_is_read_is_formed()
    ensures { (text : Text) (said : Form) → statement_of text ≡ Ok said → IsStatement said }
{}
