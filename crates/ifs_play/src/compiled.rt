//! Policies with their images.

ghost use Rattle.std.specs.Prelude.{◌≡◌, IfNone, IfOk, IfSome};

use crate::image::{PolicyImage, image_of};
use ifs_image::Budgets;
use ifs_policy::Policy;
use std::alloc::{AllocError, Global};
use std::marker::Model;

/// A policy with the image that it compiles to. Clauses see the policy.
pub struct CompiledPolicy {
    policy: Policy,
    image: PolicyImage,
}

impl Drop for CompiledPolicy {
    fn drop(self) {
        let CompiledPolicy {
            policy: _policy,
            image: _image,
        } = self;
    }
}

impl Model for CompiledPolicy {
    ghost use Rattle.ifs_policy.specs.declared.policy.PolicyParts.{PolicyParts};
    ghost use Rattle.ifs_play.specs.Compiling.{IsImageOf};
    ghost use Rattle.std.specs.Coded.{codes};
    ghost use Rattle.ifs_policy.specs.contracts.policy.Handlers as handlers;

    ghost Value = { PolicyParts };

    ghost coded = { Prim.hlevel (codes, handlers.the_row.coded) };

    ghost view = { λ it. it.policy };

    ghost invariant = { λ it. IsImageOf it.policy it.image.bytes.items it.image.budgets };
}

impl CompiledPolicy {
    ghost use Rattle.ifs_gen.specs.Compiled.{IsWritten};
    ghost use Rattle.ifs_gen.specs.PlainSizes.{room_of};
    ghost use Rattle.ifs_play.specs.Compiling.{ExceedsALimit};

    /// Compiles a policy. None if its code exceeds a limit. Returns an error if an allocation fails.
    pub fn new(alloc: Global, policy: Policy) -> Result<Option<CompiledPolicy>, AllocError>
        ensures some { IfOk result (λ found. IfSome found (λ it. it ≡ policy)) }
        ensures none { IfOk result (λ found. IfNone found (ExceedsALimit policy)) }
    {
        match image_of(alloc, &policy)? {
            Some(image) => Ok(Some(CompiledPolicy { policy, image })),
            None => Ok(None),
        }
    }

    /// The policy.
    pub fn policy(&self) -> &Policy
        ensures { result.now ≡ self.now }
    {
        &self.policy
    }

    /// The bytes of its image.
    pub fn bytes(&self) -> &[u8]
        ensures { IsWritten self.now result.now }
    {
        self.image.bytes.as_slice()
    }

    /// The stated limits of one event.
    pub fn budgets(&self) -> Budgets
        ensures { result.commands ≡ room_of self.now }
    {
        self.image.budgets
    }
}
