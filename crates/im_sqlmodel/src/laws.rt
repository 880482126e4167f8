//! Laws of the definitions.

ghost use Rattle.std.specs.Prelude.{◌≡◌, ◌≤◌, ℕ, Bool, List, [], Some};
ghost use Rattle.im_model.specs.declared.transactions.Transaction.{Transaction};
ghost use Rattle.im_sqltype.specs.declared.values.Value.{Value};
ghost use Rattle.im_sqlparse.specs.declared.statements.Condition.{Condition};
ghost use Rattle.im_sqlparse.specs.Formed.{IsFilter};
ghost use Rattle.im_sqlmodel.specs.Conditions.{most_levels, fault_to, meets_to};
ghost use Rattle.im_sqlmodel.specs.Kept.{IsSqlKept};
ghost use Rattle.im_sqlmodel.specs.Rows.{CountIs, RowsAre, HistoryIs};
ghost use Rattle.im_sqlmodel.specs.declared.rows.StoredRow.{StoredRow};
ghost use Rattle.im_sqlmodel.specs.declared.tables.Nameable.{Nameable};
ghost use Rattle.im_sqlmodel.specs.declared.tables.Table.{Table};

/// 131 levels are enough for each condition that is read: with more nothing else is wrong with it, and no other row
/// meets it.
pub fn levels_are_enough()
    ensures faults { (rev : Bool) (c : Condition) (scope : List Nameable) (levels : ℕ) → IsFilter rev (Some c) → most_levels ≤ levels
        → fault_to levels scope c ≡ fault_to most_levels scope c }
    ensures rows { (rev : Bool) (c : Condition) (scope : List Nameable) (row : List Value) (levels : ℕ) → IsFilter rev (Some c) → most_levels ≤ levels
        → meets_to levels scope row c ≡ meets_to most_levels scope row c }
{}

/// The keys of the empty history are SQL's.
pub fn nothing_is_kept()
    ensures { IsSqlKept [] }
{}

/// A history has at most one number of tables, and a table at most one list of rows and one history of them.
pub fn one_list_of_rows()
    ensures count { (history : List Transaction) (a b : ℕ) → CountIs history a → CountIs history b → a ≡ b }
    ensures rows { (history : List Transaction) (t : Table) (a b : List StoredRow) → RowsAre history t a → RowsAre history t b → a ≡ b }
    ensures revisions { (history : List Transaction) (t : Table) (a b : List (List Value)) → HistoryIs history t a → HistoryIs history t b → a ≡ b }
{}
