//! Laws of LIKE: calls that do nothing, whose contracts speak of every text and pattern.
ghost use Rattle.std.specs.Prelude.{◌≡◌, ◌↔◌, ℕ, List as Items, true};
ghost use Rattle.std.specs.Str.{chars};
ghost use Rattle.dw_like.specs.Like.{IsLike, is_like};

/// A text is like a pattern exactly where it is split into one part for each of the pattern's characters.
pub fn like_is_a_split()
    ensures { (text pattern : Items ℕ) → (is_like text pattern ≡ true) ↔ IsLike (chars text) (chars pattern) }
{}
