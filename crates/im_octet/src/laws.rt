//! What holds of the definitions. Each function does nothing, and its contract is the law.

ghost use Rattle.std.specs.Prelude.{◌≡◌, ◌<◌, ◌^◌, ℕ, ℤ, FitsSigned};
ghost use Rattle.std.specs.Int.{w64};
ghost use Rattle.im_octet.specs.Fields.{field2, field4, field8, signed_field8};

/// Numbers within their field's range have the same field only if they are the same.
pub fn fields_are_told_apart()
    ensures two { (m n : ℕ) → m < 2 ^ 16 → n < 2 ^ 16 → field2 m ≡ field2 n → m ≡ n }
    ensures four { (m n : ℕ) → m < 2 ^ 32 → n < 2 ^ 32 → field4 m ≡ field4 n → m ≡ n }
    ensures eight { (m n : ℕ) → m < 2 ^ 64 → n < 2 ^ 64 → field8 m ≡ field8 n → m ≡ n }
    ensures signed { (y z : ℤ) → FitsSigned w64 y → FitsSigned w64 z → signed_field8 y ≡ signed_field8 z → y ≡ z }
{}
