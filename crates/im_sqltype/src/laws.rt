//! What holds of the definitions. Each function does nothing, and its contract is the law.

ghost use Rattle.std.specs.Prelude.{◌≡◌, ◌≢◌, [], ◌++◌, ℕ, List};
ghost use Rattle.std.specs.Ordering.{ordering_then};
ghost use Rattle.std.specs.declared.cmp.Ordering.TheVariants.{Less, Equal};
ghost use Rattle.im_sqltype.specs.Kinds.{IsOfKind, AreOfKinds};
ghost use Rattle.im_sqltype.specs.Orders.{octets_cmp, value_cmp, row_cmp};
ghost use Rattle.im_sqltype.specs.Texts.{value_text, row_text};
ghost use Rattle.im_sqltype.specs.declared.kinds.ValueKind.{ValueKind};
ghost use Rattle.im_sqltype.specs.declared.values.Value.{Value};
ghost use Rattle.im_sqltype.specs.declared.values.Value.TheVariants.{Null};

/// Octet by octet, the texts of values of one kind are in the order of the values, and so are the texts of lists
/// of columns, whatever stands behind them.
pub fn octet_order_is_value_order()
    ensures values { (kind : ValueKind) (v w : Value) → IsOfKind kind v → IsOfKind kind w → octets_cmp (value_text v) (value_text w) ≡ value_cmp v w }
    ensures rows { (kinds : List ValueKind) (vs ws : List Value) → AreOfKinds kinds vs → AreOfKinds kinds ws → octets_cmp (row_text vs) (row_text ws) ≡ row_cmp vs ws }
    ensures behind { (kinds : List ValueKind) (vs ws : List Value) (a b : List ℕ) → AreOfKinds kinds vs → AreOfKinds kinds ws → octets_cmp (row_text vs ++ a) (row_text ws ++ b) ≡ ordering_then (row_cmp vs ws) (octets_cmp a b) }
{}

/// No text of a value is the front part of another's of its kind, and two values with one text are one; the same
/// holds of lists of columns.
pub fn no_text_is_the_front_of_another()
    ensures value { (kind : ValueKind) (v w : Value) (rest : List ℕ) → IsOfKind kind v → IsOfKind kind w → value_text w ≡ value_text v ++ rest → v ≡ w }
    ensures value_end { (kind : ValueKind) (v w : Value) (rest : List ℕ) → IsOfKind kind v → IsOfKind kind w → value_text w ≡ value_text v ++ rest → rest ≡ [] }
    ensures row { (kinds : List ValueKind) (vs ws : List Value) (rest : List ℕ) → AreOfKinds kinds vs → AreOfKinds kinds ws → row_text ws ≡ row_text vs ++ rest → vs ≡ ws }
    ensures row_end { (kinds : List ValueKind) (vs ws : List Value) (rest : List ℕ) → AreOfKinds kinds vs → AreOfKinds kinds ws → row_text ws ≡ row_text vs ++ rest → rest ≡ [] }
{}

/// NULL is below each other value, and two values that compare as equal are one.
pub fn null_is_first()
    ensures first { (v : Value) → v ≢ Null → value_cmp Null v ≡ Less }
    ensures apart { (v w : Value) → value_cmp v w ≡ Equal → v ≡ w }
{}
