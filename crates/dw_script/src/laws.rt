//! Laws of scripts: calls that do nothing, whose contracts speak of every script.
ghost use Rattle.std.specs.Prelude.{◌≡◌, ℕ, ◌+◌, true, not, ◌==◌, List, [], ◌∷◌, ◌++◌, length, None};
ghost use Rattle.std.specs.Option.{option_map};
ghost use Rattle.std.specs.List.{list_all};
ghost use Rattle.dw_script.specs.Place.{ends_outside, left_open};
ghost use Rattle.dw_script.specs.Statements.{statements};
ghost use Rattle.dw_script.specs.Comments.{IsGap, IsOneLine};
ghost use Rattle.dw_script.specs.Texts.{quoted, further};
ghost use Rattle.dw_script.specs.Characters.{semicolon, name_quote, dash};

/// A law of scripts: a `;` after a script that ends outside of texts, quoted names and comments cuts what follows off.
/// The two are split as if each stood alone, and what the second leaves open begins where it does there, after the
/// first and the `;`.
pub fn scripts_joined()
    ensures statements { (front back : List ℕ) → ends_outside front ≡ true →
        statements (front ++ semicolon ∷ back) ≡ statements front ++ statements back }
    ensures left_open { (front back : List ℕ) → ends_outside front ≡ true →
        left_open (front ++ semicolon ∷ back) ≡ option_map (further (length front + 1)) (left_open back) }
    ensures ends_outside { (front back : List ℕ) → ends_outside front ≡ true →
        ends_outside (front ++ semicolon ∷ back) ≡ ends_outside back }
{}

/// A law of blanks and comments: whatever whole comments hold, before a script they and blanks count for nothing, and
/// what the script leaves open begins where it does alone, after them. They are no statement by themselves, nor with a
/// comment after them that the end of the script ends.
pub fn gaps_left_out()
    ensures statements { (gap script : List ℕ) → IsGap gap → statements (gap ++ script) ≡ statements script }
    ensures left_open { (gap script : List ℕ) → IsGap gap →
        left_open (gap ++ script) ≡ option_map (further (length gap)) (left_open script) }
    ensures ends_outside { (gap script : List ℕ) → IsGap gap → ends_outside (gap ++ script) ≡ ends_outside script }
    ensures last_line { (comment : List ℕ) → IsOneLine comment → statements (dash ∷ dash ∷ comment) ≡ [] }
    ensures last_closed { (comment : List ℕ) → IsOneLine comment → left_open (dash ∷ dash ∷ comment) ≡ None }
{}

/// A law of texts and quoted names: whatever a text holds, a `;` and a quote too, or a quoted name without a double
/// quote, it is one statement and leaves nothing open.
pub fn texts_kept()
    ensures statements { (text : List ℕ) → statements (quoted text) ≡ quoted text ∷ [] }
    ensures closed { (text : List ℕ) → ends_outside (quoted text) ≡ true }
    ensures names { (name : List ℕ) → list_all (λ byte. not (byte == name_quote)) name ≡ true →
        statements (name_quote ∷ name ++ name_quote ∷ []) ≡ (name_quote ∷ name ++ name_quote ∷ []) ∷ [] }
    ensures names_closed { (name : List ℕ) → list_all (λ byte. not (byte == name_quote)) name ≡ true →
        ends_outside (name_quote ∷ name ++ name_quote ∷ []) ≡ true }
{}
