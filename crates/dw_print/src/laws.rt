//! Laws about the text of reports: calls that do nothing, whose contracts speak of every text.
ghost use Rattle.std.specs.Prelude.{◌≡◌, ℕ, List as Items};
ghost use Rattle.dw_value.specs.declared.values.Field.{Field as Shown};
ghost use Rattle.dw_print.specs.Fields.{field, shown_field, text_of_field};

/// A field stands for the text that it was printed from, so texts that are printed alike are the same.
pub fn fields_read_back()
    ensures reads_back { (bytes : Items ℕ) → text_of_field (field bytes) ≡ bytes }
    ensures injective { (a b : Items ℕ) → field a ≡ field b → a ≡ b }
{}

/// Fields of answers that are printed alike are the same, so what stands for NULL stands for no text.
pub fn shown_fields_are_apart()
    ensures { (a b : Shown) → shown_field a ≡ shown_field b → a ≡ b }
{}
