//! The law of decimals of thousandths. Its contract is the law; its body is empty.
ghost use Rattle.std.specs.Prelude.{◌≡◌, ◌<◌, ◌^◌, ℕ, Some};
ghost use Rattle.ls_form.specs.Decimals.{milli_of, milli_text};

/// What is printed, with at most 9 digits before the point, is read as the same number.
pub fn a_printed_decimal_is_read_as_itself()
    ensures { (n : ℕ) → n < 10 ^ 12 → milli_of (milli_text n) ≡ Some n }
{}
