/// What holds of each list that a pass has seen.
pub trait Law {
    ghost use Rattle.std.specs.Prelude.{◌≡◌, List, true};
    ghost use Rattle.std.specs.List.{All};
    ghost use Rattle.im_table.specs.declared.items.LogItem.{LogItem};

    // The lists that may be.
    ghost allows: { List LogItem → Type 0 };

    // A list that was found when the store was opened may be, whatever it says.
    ghost allows_found: { (xs : List LogItem) → All (λ x. x.found ≡ true) xs → allows xs };
}

/// The law that allows each list.
pub struct Free;

impl Law for Free {
    ghost allows = { λ _. Unit {0} };

    ghost allows_found = { λ _ _. tt };
}
