//! Laws about the definitions of policies. Each is the contract of an empty function.

ghost use Rattle.std.specs.Prelude.{◌≡◌, ◌↔◌, List, Contains, IsTrue};
ghost use Rattle.ifs_base.specs.Effects.{nothing_yet};
ghost use Rattle.ifs_base.specs.Facts.{Facts};
ghost use Rattle.ifs_base.specs.declared.ids.TestId.{TestId};
ghost use Rattle.ifs_lex.specs.Numbered.{AreNumbered};
ghost use Rattle.ifs_lex.specs.declared.token.Token.{Token};
ghost use Rattle.ifs_parse.specs.Files.{File};
ghost use Rattle.ifs_parse.specs.Grammar.{IsSaid, Says};
ghost use Rattle.ifs_parse.specs.declared.tree.Item.{Item};
ghost use Rattle.ifs_policy.specs.declared.fault.ResolveFault.{ResolveFault};
ghost use Rattle.ifs_policy.specs.declared.policy.PolicyParts.{PolicyParts};
ghost use Rattle.ifs_policy.specs.Faults.{IsTreeRefused, NamesToken};
ghost use Rattle.ifs_policy.specs.Resolution.{Resolves};
ghost use Rattle.ifs_policy.specs.Fits.{PolicyFits};
ghost use Rattle.ifs_policy.specs.Meaning.{body_yield, is_held, mentioned, reached, Block, IsHeld, Mentions};
ghost use Rattle.ifs_policy.specs.Named.{SaysTree};
ghost use Rattle.ifs_policy.specs.Order.{InOrder};
ghost use Rattle.ifs_policy.specs.Whole.{KeepsRules};

/// A tree has at most one policy.
pub fn one_policy()
    ensures { (items : List Item) (policy other : PolicyParts) → Resolves items policy → Resolves items other → policy ≡ other }
{}

/// A rejected tree has no policy, and exactly one fault comes first.
pub fn one_refusal()
    ensures none { (items : List Item) (fault : ResolveFault) → IsTreeRefused items fault → (policy : PolicyParts) → ¬ Resolves items policy }
    ensures one { (items : List Item) (fault other : ResolveFault) → IsTreeRefused items fault → IsTreeRefused items other → fault ≡ other }
{}

/// The fault of a tree that numbered tokens say names one of them by its number and its place.
pub fn refused_at_a_token()
    ensures { (tokens : List Token) (file : File) (fault : ResolveFault) → AreNumbered tokens → Says tokens file → IsTreeRefused file.items fault → NamesToken tokens fault }
{}

/// A tree has a policy exactly if its names keep the rules, stated over the whole tree.
pub fn tree_has_a_policy()
    ensures { (items : List Item) → ((policy : PolicyParts) × Resolves items policy) ↔ KeepsRules items }
{}

/// The tables of a policy list each entry once, in the order of first use. States are in the order of their
/// definitions.
pub fn numbered_by_first_use()
    ensures { (items : List Item) (policy : PolicyParts) → Resolves items policy → InOrder items policy.tables }
{}

/// With the names that its tables have for its numbers, a policy says what its tree says: each part has its `init` and
/// its other statements, with commands, conditions and order, and the initial state is the one that the tree names.
pub fn names_give_the_tree()
    ensures { (items : List Item) (policy : PolicyParts) → Resolves items policy → SaysTree items policy }
{}

/// A policy of a parsed tree keeps the limits, and its numbers refer to entries of its tables.
pub fn policies_fit()
    ensures { (file : File) (policy : PolicyParts) → IsSaid file → Resolves file.items policy → PolicyFits policy }
{}

/// The list of tests of a block has exactly those that the block mentions.
pub fn mentioned_are_mentions()
    ensures { (block : Block) (test : TestId) → Contains (mentioned block) test ↔ Mentions test block }
{}

/// A body is held back exactly if it mentions a test without a value. It then yields nothing; otherwise it
/// yields what it reaches.
pub fn held_by_an_open_test()
    ensures exactly { (facts : Facts) (body : Block) → IsTrue (is_held facts body) ↔ IsHeld facts body }
    ensures held { (facts : Facts) (body : Block) → IsHeld facts body → body_yield facts body ≡ nothing_yet }
    ensures free { (facts : Facts) (body : Block) → ¬ IsHeld facts body → body_yield facts body ≡ reached facts body }
{}
