//! Two lists of values with one spelling are equal: a law for each encoding, which does nothing when it is called.

ghost use Rattle.std.specs.Prelude.{◌≡◌, ℕ, ℤ, List, All};
ghost use Rattle.dw_codec_plain.specs.Numbers.{IsWidth, FitsWidth};
ghost use Rattle.dw_codec_plain.specs.Encodings.{raw, raw_texts, mostly, IsMostlyStep, IsText};

/// RAW has one form.
pub fn raw_has_one_form()
    ensures { (width : ℕ) (values others : List ℤ) → IsWidth width → All (FitsWidth width) values → All (FitsWidth width) others
        → raw width values ≡ raw width others → values ≡ others }
{}

/// MOSTLY has one form.
pub fn mostly_has_one_form()
    ensures { (width step : ℕ) (values others : List ℤ) → IsWidth width → IsMostlyStep step → All (FitsWidth width) values → All (FitsWidth width) others
        → mostly width step values ≡ mostly width step others → values ≡ others }
{}

/// RAW for texts has one form.
pub fn raw_texts_have_one_form()
    ensures { (values others : List (List ℕ)) → All IsText values → All IsText others → raw_texts values ≡ raw_texts others → values ≡ others }
{}
