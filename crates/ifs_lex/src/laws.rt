//! Laws of the tokens. Each law is the contract of a function that does nothing.

ghost use Rattle.std.specs.Prelude.{◌≡◌, ◌⊎◌, ℕ, Bool, true, false, Some, List};
ghost use Rattle.ifs_lex.specs.declared.token.Token.{Token};
ghost use Rattle.ifs_lex.specs.declared.token.What.{What};
ghost use Rattle.ifs_lex.specs.Expansion.{EndsOnce, Macros, HasTokens, value_of};
ghost use Rattle.ifs_lex.specs.Numbered.{AreNumbered};
ghost use Rattle.ifs_lex.specs.Characters.{is_quote};
ghost use Rattle.ifs_lex.specs.Lexemes.{Spanned, inside_len, lexemes_of, quoted_value};
ghost use Rattle.ifs_lex.specs.Stuck.{IsStuck, StuckWith};
ghost use Rattle.ifs_lex.specs.declared.fault.LexFault.{LexFault};
ghost use Rattle.ifs_lex.specs.Spelling.{Closes, Ended, Longest, HasValue, Spelling};
ghost use Rattle.std.specs.List.{prefix_len};

/// A text spells at most one list of tokens with the definitions that are given beside it.
pub fn one_list()
    ensures { (text : List ℕ) (defs : List (List ℕ × List ℕ)) (tokens other : List Token)
        → HasTokens text defs tokens → HasTokens text defs other → tokens ≡ other }
{}

/// The last token, and no other, is the end.
pub fn ends_once()
    ensures { (text : List ℕ) (defs : List (List ℕ × List ℕ)) (tokens : List Token)
        → HasTokens text defs tokens → EndsOnce tokens }
{}

/// Each token of a text has its number in the list of tokens.
pub fn have_numbers()
    ensures { (text : List ℕ) (defs : List (List ℕ × List ℕ)) (tokens : List Token)
        → HasTokens text defs tokens → AreNumbered tokens }
{}

/// The lexer reads the longest run of bytes that a word or a name may have.
pub fn longest_runs()
    ensures some { (passes : ℕ → Bool) (bytes : List ℕ) → Longest passes bytes (prefix_len passes bytes) }
    ensures only { (passes : ℕ → Bool) (bytes : List ℕ) (n : ℕ) → Longest passes bytes n → n ≡ prefix_len passes bytes }
{}

/// A text between quotes has one value: the one that the lexer reads.
pub fn one_value()
    ensures some { (quote : ℕ) (inside : List ℕ) → is_quote quote ≡ true → HasValue quote inside (quoted_value quote inside) }
    ensures only { (quote : ℕ) (inside value : List ℕ) → is_quote quote ≡ true → HasValue quote inside value → value ≡ quoted_value quote inside }
{}

/// The first quote that is not after a backslash closes a quoted text.
pub fn one_closing_quote()
    ensures some { (quote : ℕ) (bytes : List ℕ) (n : ℕ) → inside_len quote false bytes ≡ Some n → Closes quote false bytes n }
    ensures only { (quote : ℕ) (bytes : List ℕ) (n : ℕ) → Closes quote false bytes n → inside_len quote false bytes ≡ Some n }
{}

/// The lexer reads the lexemes of a text that has a list of them, so a text has at most one list.
pub fn one_spelling()
    ensures found { (text : List ℕ) (lexemes : List Spanned) → lexemes_of text ≡ lexemes → Ended lexemes → Spelling text 0 lexemes }
    ensures only { (text : List ℕ) (lexemes : List Spanned) → Spelling text 0 lexemes → (lexemes_of text ≡ lexemes) × Ended lexemes }
{}

/// A text that spells tokens has a list of lexemes. So has a text that is the value of a macro.
pub fn spelled_lexemes()
    ensures text { (text : List ℕ) (defs : List (List ℕ × List ℕ)) (tokens : List Token)
        → HasTokens text defs tokens → Spelling text 0 (lexemes_of text) }
    ensures value { (known : Macros) (text : List ℕ) (whats : List What) → value_of known text ≡ Some whats → Spelling text 0 (lexemes_of text) }
{}

/// A text either has a list of lexemes, or is stuck. It is stuck at one place and with one fault.
pub fn one_stuck()
    ensures one { (text : List ℕ) (at other : ℕ) (fault second : LexFault) → IsStuck text at fault → IsStuck text other second → (at ≡ other) × (fault ≡ second) }
    ensures none { (text : List ℕ) (lexemes : List Spanned) (at : ℕ) (fault : LexFault) → Spelling text 0 lexemes → ¬ IsStuck text at fault }
    ensures some { (text : List ℕ) → Spelling text 0 (lexemes_of text) ⊎ ((fault : LexFault) × StuckWith text fault) }
{}
