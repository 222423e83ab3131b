//! Laws of the grammar. Each law is the contract of a function that does nothing.

ghost use Rattle.std.specs.Prelude.{◌≡◌, ◌≤◌, length, List, true};
ghost use Rattle.std.specs.List.{Any};
ghost use Rattle.ifs_lex.specs.declared.token.Token.{Token};
ghost use Rattle.ifs_parse.specs.Files.{File};
ghost use Rattle.ifs_parse.specs.Grammar.{is_noted, Operands, Says, StopsAt, whole};
ghost use Rattle.ifs_parse.specs.declared.fault.ParseFault.{ParseFault};
ghost use Rattle.ifs_parse.specs.declared.tree.Test.{Test};
ghost use Rattle.ifs_parse.specs.Trees as tree;

/// Tokens say at most one file, with one list of notes.
pub fn one_tree()
    ensures { (tokens : List Token) (file other : File) → Says tokens file → Says tokens other → file ≡ other }
{}

/// Tokens stop with at most one fault. Tokens that stop say no file.
pub fn one_fault()
    ensures one { (tokens : List Token) (fault other : ParseFault) → StopsAt tokens fault → StopsAt tokens other → fault ≡ other }
    ensures none { (tokens : List Token) (file : File) (fault : ParseFault) → Says tokens file → ¬ StopsAt tokens fault }
{}

/// Operands of `||` get a note if and only if there are two or more, and at least one of them has two or more itself.
pub fn one_note()
    ensures noted { (o : Operands (Operands (tree.Condition Test))) → is_noted o ≡ true → (2 ≤ length (whole o)) × Any (λ all. 2 ≤ length (whole all)) (whole o) }
    ensures only { (o : Operands (Operands (tree.Condition Test))) → 2 ≤ length (whole o) → Any (λ all. 2 ≤ length (whole all)) (whole o) → is_noted o ≡ true }
{}
