//! The code of a condition as a table entry, found by its bytes.

ghost use Rattle.std.specs.Prelude.{◌≡◌};
ghost use Rattle.std.specs.Hash as fed;
ghost use Rattle.std.specs.Cmp.{partial_equiv_from_equiv};
ghost use Rattle.ifs_gen.specs.Sharing.{same_code};
ghost use Rattle.ifs_gen.specs.inner.Keys.{same_code_laws, fed_op, same_are_fed};

use ifs_base::{Op, encode_op};
use std::alloc::AllocError;
use std::hash::{Hash, Hasher};
use std::marker::Model;

/// The code of a condition. Clauses see its instructions. Two codes are equal if their bytes are.
#[derive(Drop)]
pub(crate) struct ConditionCode {
    ops: Vec<Op>,
}

impl Model for ConditionCode {
    ghost use Rattle.std.specs.Prelude.{List};
    ghost use Rattle.ifs_base.specs.declared.op.Op.{Op};

    ghost Value = { List Op };

    ghost view = { λ a. a.ops.items };
}

impl ConditionCode {
    /// The code with these instructions. Does not allocate.
    pub fn new(ops: Vec<Op>) -> Self
        ensures { result ≡ ops.items }
    {
        ConditionCode { ops }
    }

    /// The instructions.
    pub fn as_slice(&self) -> &[Op]
        ensures { result.now ≡ self.now }
    {
        self.ops.as_slice()
    }

    /// Gives the instructions back. Takes no memory.
    pub fn into_vec(self) -> Vec<Op>
        ensures { result.items ≡ self }
    {
        let ConditionCode { ops } = self;
        ops
    }
}

impl PartialEq for ConditionCode {
    ghost eq = { same_code };

    ghost laws = { partial_equiv_from_equiv same_code_laws };

    fn eq(&self, other: &ConditionCode) -> bool {
        let mut left = self.as_slice();
        let mut right = other.as_slice();
        while let [op, rest @ ..] = left {
            let [with, others @ ..] = right else {
                return false;
            };
            if encode_op(*op) != encode_op(*with) {
                return false;
            }
            left = rest;
            right = others;
        }
        right.is_empty()
    }
}

impl Eq for ConditionCode {
    ghost laws = { same_code_laws };
}

impl Hash for ConditionCode {
    ghost hash_input = { fed.slice fed_op };

    ghost respects_eq = { same_are_fed };

    fn hash<H: Hasher>(&self, state: &mut H) {
        state.write_usize(self.as_slice().len());
        for op in self.as_slice() {
            state.write(&encode_op(*op));
        }
    }
}

impl Clone for ConditionCode {
    ghost is_clone = { λ code made. made ≡ code };

    fn clone(&self) -> Result<ConditionCode, AllocError> {
        Ok(ConditionCode {
            ops: self.ops.clone()?,
        })
    }
}
