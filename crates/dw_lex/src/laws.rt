//! Laws of the lexical rules: calls that do nothing, whose contracts speak of all bytes.
ghost use Rattle.std.specs.Prelude.{◌≡◌, ℕ, ◌<◌, true, Some, List, [], ◌∷◌, ◌++◌, length};
ghost use Rattle.std.specs.Str.{IsUtf8};
ghost use Rattle.dw_lex.specs.Characters.{is_blank};
ghost use Rattle.dw_lex.specs.Forms.{token_at};
ghost use Rattle.dw_lex.specs.Gaps.{gap_at, IsComment, IsGap};
ghost use Rattle.dw_lex.specs.Spelling.{IsToken};
ghost use Rattle.dw_lex.specs.declared.token.Form.{Form};

/// What is spelled as a token at the front of bytes is the token that is read there. So no two tokens are, and none is
/// longer. Where all bytes are UTF-8, the token is, and so are the bytes after it.
pub fn spelled_tokens_are_read()
    ensures read { (form : Form) (word rest : List ℕ) →
        IsToken form word rest → IsUtf8 word → token_at (word ++ rest) ≡ Some (form, word) }
    ensures utf8 { (form : Form) (word rest : List ℕ) →
        IsToken form word rest → IsUtf8 (word ++ rest) → IsUtf8 word × IsUtf8 rest }
    ensures blank { (b : ℕ) (rest : List ℕ) → is_blank b ≡ true → IsUtf8 (b ∷ rest) → IsUtf8 rest }
{}

/// What is read as a token at the front of bytes is spelled as that token.
pub fn read_tokens_are_spelled()
    ensures { (bytes : List ℕ) (form : Form) (word : List ℕ) → token_at bytes ≡ Some (form, word) →
        (rest : List ℕ) × (bytes ≡ word ++ rest) × IsToken form word rest × IsUtf8 word }
{}

/// What is spelled as a blank or a comment at the front of bytes is passed over there, whatever it holds, and no token
/// is spelled there. Where all bytes are UTF-8, those after it are.
pub fn spelled_gaps_are_passed()
    ensures blank { (b : ℕ) (rest : List ℕ) → is_blank b ≡ true → gap_at (b ∷ rest) ≡ 1 }
    ensures comment { (word rest : List ℕ) → IsComment word rest → gap_at (word ++ rest) ≡ length word }
    ensures no_token { (form : Form) (word rest : List ℕ) → IsToken form word rest → gap_at (word ++ rest) ≡ 0 }
    ensures utf8 { (word rest : List ℕ) → IsComment word rest → IsUtf8 (word ++ rest) → IsUtf8 rest }
{}

/// What is passed over at the front of bytes is spelled as a blank or a comment.
pub fn read_gaps_are_spelled()
    ensures { (bytes : List ℕ) → 0 < gap_at bytes →
        (gap : List ℕ) × (rest : List ℕ) × (bytes ≡ gap ++ rest) × (length gap ≡ gap_at bytes) × IsGap gap rest }
{}
