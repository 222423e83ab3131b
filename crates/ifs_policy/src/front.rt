//! From a text to its policy, by way of its tokens and their tree.

ghost use Rattle.std.specs.Prelude.{◌≡◌, ◌≢◌, Some, Err, IfOk, IfErr};
ghost use Rattle.ifs_lex.specs.declared.fault.LexFault.{LexFault};
ghost use Rattle.ifs_lex.specs.AtOnce.{certain_at_once};
ghost use Rattle.ifs_base.specs.FaultTexts.{fault_words};
ghost use Rattle.ifs_policy.specs.FaultWords.{policy_fault_words};
ghost use Rattle.ifs_policy.specs.Texts.{of_names, of_text, of_tokens, HasPolicy, IsTextRefused, SaysFile};
ghost use Rattle.ifs_policy.specs.declared.front.PolicyFault.TheVariants.{Memory};
ghost use Rattle.ifs_lex.specs.Expansion.{defined_by};

use crate::fault::ResolveFault;
use crate::policy::Policy;
use crate::resolving::resolve;
use ifs_base::{FaultPlace, FaultText};
use ifs_lex::laws::one_list;
use ifs_lex::{LexFault, tokens};
use ifs_parse::laws::one_tree;
use ifs_parse::{ParseFault, Tree, parse};
use std::alloc::Global;
use std::fmt::{self, Debug, Display, Formatter, Write};
use thiserror::Error;

/// Why a text has no policy: the fault of the first step that rejects it.
#[derive(Clone, Copy, PartialEq, Eq, Error)]
pub enum PolicyFault {
    /// P1 to P5: the text has no tokens.
    Text(LexFault),
    /// P6 to P8: the tokens do not follow the grammar.
    Tokens(ParseFault),
    /// P9 to P16: the names break a rule.
    Names(ResolveFault),
    /// P0: an allocation failed.
    Memory,
}

impl PolicyFault {
    /// The code and the place, as they are printed.
    pub fn text(self) -> FaultText
        ensures { fault_words result ≡ policy_fault_words self }
    {
        match self {
            PolicyFault::Text(fault) => fault.text(),
            PolicyFault::Tokens(fault) => fault.text(),
            PolicyFault::Names(fault) => fault.text(),
            PolicyFault::Memory => FaultText {
                code: "P0",
                place: FaultPlace::Nowhere,
            },
        }
    }
}

impl Display for PolicyFault {
    ghost output = { λ fault. Some (policy_fault_words fault) };

    fn fmt<W: Write>(&self, f: &mut Formatter<W>) -> fmt::Result {
        write!(f, "{}", self.text())
    }
}

/// The same as `Display`.
impl Debug for PolicyFault {
    fn fmt<W: Write>(&self, f: &mut Formatter<W>) -> fmt::Result {
        Display::fmt(self, f)
    }
}

impl From<LexFault> for PolicyFault {
    ghost from_gives = { λ fault e. e ≡ of_text fault };

    fn from(fault: LexFault) -> PolicyFault {
        match fault {
            LexFault::Memory => PolicyFault::Memory,
            fault => PolicyFault::Text(fault),
        }
    }
}

impl From<ParseFault> for PolicyFault {
    ghost from_gives = { λ fault e. e ≡ of_tokens fault };

    fn from(fault: ParseFault) -> PolicyFault {
        match fault {
            ParseFault::Memory => PolicyFault::Memory,
            fault => PolicyFault::Tokens(fault),
        }
    }
}

impl From<ResolveFault> for PolicyFault {
    ghost from_gives = { λ fault e. e ≡ of_names fault };

    fn from(fault: ResolveFault) -> PolicyFault {
        match fault {
            ResolveFault::Memory => PolicyFault::Memory,
            fault => PolicyFault::Names(fault),
        }
    }
}

/// A policy, beside the tree of its text and the notes on it.
#[derive(Drop)]
pub struct PolicyText {
    pub tree: Tree,
    pub policy: Policy,
}

/// The policy of a text, and its tree. `defs` define macros and override the definitions of the text. The
/// first of two with one name holds.
///
/// An error is that of the first step that fails: the tokens, the grammar, or the names. It has the line. P0
/// may come in place of any other result, except a fault that is certain before the first allocation.
pub fn policy_of<'a>(
    alloc: Global,
    text: &'a str,
    defs: &'a [(&'a str, &'a str)],
) -> Result<PolicyText, PolicyFault>
    // The result is a policy of the text.
    ensures policy { IfOk result (λ it. HasPolicy text.now (defined_by defs.now) it.policy) }
    // Its tree is that of the tokens.
    ensures tree { IfOk result (λ it. SaysFile text.now (defined_by defs.now) it.tree) }
    // An error other than P0 comes only if the text has no policy, and is the first fault.
    ensures refused { IfErr result (λ fault. fault ≢ Memory → IsTextRefused text.now (defined_by defs.now) fault) }
    // A fault that is certain before the first allocation is returned, not P0.
    ensures at_once { (fault : LexFault) → certain_at_once text.now (defined_by defs.now) ≡ Some fault → result ≡ Err (of_text fault) }
{
    one_list();
    one_tree();
    let tokens = match tokens(alloc, text, defs) {
        Ok(tokens) => tokens,
        Err(fault) => return Err(PolicyFault::from(fault)),
    };
    let tree = match parse(alloc, tokens.as_slice()) {
        Ok(tree) => tree,
        Err(fault) => return Err(PolicyFault::from(fault)),
    };
    match resolve(alloc, &tree) {
        Ok(policy) => Ok(PolicyText { tree, policy }),
        Err(fault) => Err(PolicyFault::from(fault)),
    }
}
