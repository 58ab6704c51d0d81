ghost use Rattle.std.specs.Prelude.{◌≡◌, IfOk};

use lw_formula::Logic;
use lw_model::Model;
use lw_pool::FormId;
use lw_proof::Proof;
use std::alloc::AllocError;

/// What a certificate shows of its formula.
#[derive(Debug, Drop)]
pub enum Body {
    /// That it is valid: a proof.
    Proved(Proof),
    /// That it isn't: a model, and the world at which the formula is false.
    Refuted(Model, usize),
}

/// A formula of a pool with a proof of it, or with a model that refutes it. Whether the body shows what it claims is
/// the checker's matter.
#[derive(Debug, Drop)]
pub struct Certificate {
    pub logic: Logic,
    pub formula: FormId,
    pub body: Body,
}

impl Body {
    /// A second body that is equal to this one. It fails for want of memory alone.
    pub fn try_clone(&self) -> Result<Body, AllocError>
        ensures { IfOk result (λ body. body ≡ self.now) }
    {
        match self {
            Body::Proved(proof) => Ok(Body::Proved(proof.try_clone()?)),
            Body::Refuted(model, world) => Ok(Body::Refuted(model.try_clone()?, *world)),
        }
    }
}

impl Certificate {
    /// A second certificate that is equal to this one. It fails for want of memory alone.
    pub fn try_clone(&self) -> Result<Certificate, AllocError>
        ensures { IfOk result (λ certificate. certificate ≡ self.now) }
    {
        Ok(Certificate {
            logic: self.logic,
            formula: self.formula,
            body: self.body.try_clone()?,
        })
    }
}
