//! What holds of the words of the forms: which run they ask for. Each function does nothing, and its contract is the
//! law.

ghost use Rattle.std.specs.Prelude.{◌≡◌, ℕ, List};
ghost use Rattle.clap.specs.Words.{Text};
ghost use Rattle.im_words.specs.Form.{IsForm, IsGenForm, IsShowForm, IsVerifyForm};
ghost use Rattle.im_words.specs.Meaning.{AsksGen, AsksRun, AsksShow, AsksVerify};
ghost use Rattle.im_words.specs.declared.Link.{Link};

/// Words of the form `NAME run` ask for a run, with the number of logs and the link that they write and no other, and
/// not for `verify`.
pub fn a_form_asks_for_its_run()
    ensures asks { (words : List Text) (logs : ℕ) (link : Link) → IsForm words logs link
        → (asks : AsksRun words) × (asks.0 ≡ logs) × (asks.1 ≡ link) }
    ensures only { (words : List Text) (logs : ℕ) (link : Link) → IsForm words logs link
        → (asks : AsksRun words) → (asks.0 ≡ logs) × (asks.1 ≡ link) }
    ensures no_verify { (words : List Text) (logs : ℕ) (link : Link) → IsForm words logs link → AsksVerify words → ⊥ }
{}

/// Words of the form `NAME verify` ask for `verify`, and for no run.
pub fn a_verify_form_asks_for_verify()
    ensures asks { (words : List Text) → IsVerifyForm words → AsksVerify words }
    ensures no_run { (words : List Text) → IsVerifyForm words → AsksRun words → ⊥ }
{}

/// Words of the form `NAME show` ask for `show`, for no run, and not for `verify`.
pub fn a_show_form_asks_for_show()
    ensures asks { (words : List Text) → IsShowForm words → AsksShow words }
    ensures no_run { (words : List Text) → IsShowForm words → AsksRun words → ⊥ }
    ensures no_verify { (words : List Text) → IsShowForm words → AsksVerify words → ⊥ }
{}

/// Words of the form `NAME gen N` ask for the script of N lines, for no other, and for nothing else.
pub fn a_gen_form_asks_for_its_script()
    ensures asks { (words : List Text) (n : ℕ) → IsGenForm words n → (asks : AsksGen words) × (asks.0 ≡ n) }
    ensures only { (words : List Text) (n : ℕ) → IsGenForm words n → (asks : AsksGen words) → asks.0 ≡ n }
    ensures no_run { (words : List Text) (n : ℕ) → IsGenForm words n → AsksRun words → ⊥ }
    ensures no_verify { (words : List Text) (n : ℕ) → IsGenForm words n → AsksVerify words → ⊥ }
    ensures no_show { (words : List Text) (n : ℕ) → IsGenForm words n → AsksShow words → ⊥ }
{}

/// Words that ask for two runs ask for the same one.
pub fn one_run()
    ensures { (words : List Text) (a b : AsksRun words) → (a.0 ≡ b.0) × (a.1 ≡ b.1) }
{}

/// No words ask for two of a run, `verify`, `show` and a script.
pub fn not_both()
    ensures run_verify { (words : List Text) → AsksRun words → AsksVerify words → ⊥ }
    ensures run_show { (words : List Text) → AsksRun words → AsksShow words → ⊥ }
    ensures verify_show { (words : List Text) → AsksVerify words → AsksShow words → ⊥ }
    ensures run_gen { (words : List Text) → AsksRun words → AsksGen words → ⊥ }
    ensures verify_gen { (words : List Text) → AsksVerify words → AsksGen words → ⊥ }
    ensures show_gen { (words : List Text) → AsksShow words → AsksGen words → ⊥ }
{}
