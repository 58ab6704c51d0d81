ghost use Rattle.std.specs.Prelude.{◌≡◌, IfOk, IfErr, OnOk, min, length, Contains};
ghost use Rattle.lw_formula.specs.Formula.{depth, letter};
ghost use Rattle.lw_formula.specs.Joint.{joint_of};
ghost use Rattle.lw_formula.specs.Variables.{replace, HasNames, AreVariables, AreInByteOrder, AddsVariables, IsGapFor};
ghost use Rattle.lw_formula.specs.Tree.{tree_of};

use crate::joint::Joint;
use crate::name::Name;
use std::alloc::{AllocError, Global};

/// A formula as a plain tree.
#[derive(Debug, Drop)]
pub enum Form {
    Var(Name),
    Bot,
    Top,
    Not(Box<Form>),
    And(Box<Form>, Box<Form>),
    Or(Box<Form>, Box<Form>),
    Imp(Box<Form>, Box<Form>),
    Iff(Box<Form>, Box<Form>),
    Nec(Box<Form>),
    Poss(Box<Form>),
}

impl Form {
    /// The connective that stands between two operands, if the formula has such.
    pub fn joint(&self) -> Option<Joint>
        ensures { result ≡ joint_of (tree_of self.now) }
    {
        match self {
            Form::And(_, _) => Some(Joint::And),
            Form::Or(_, _) => Some(Joint::Or),
            Form::Imp(_, _) => Some(Joint::Imp),
            Form::Iff(_, _) => Some(Joint::Iff),
            Form::Var(_) | Form::Bot | Form::Top | Form::Not(_) | Form::Nec(_) | Form::Poss(_) =>
                None,
        }
    }

    /// The greatest number of `Nec` and `Poss` above a leaf, or the greatest `usize` where there are more. The letters of
    /// each formula are names, as its type says.
    pub fn modal_depth(&self) -> usize
        ensures depth { result ≡ min (depth (tree_of self.now)) usize.MAX }
        ensures names { HasNames (tree_of self.now) }
    {
        match self {
            Form::Var(name) => {
                let _ = name.as_bytes();
                0
            }
            Form::Bot | Form::Top => 0,
            Form::Not(a) => a.modal_depth(),
            Form::And(a, b) | Form::Or(a, b) | Form::Imp(a, b) | Form::Iff(a, b) => {
                a.modal_depth().max(b.modal_depth())
            }
            Form::Nec(a) | Form::Poss(a) => a.modal_depth().saturating_add(1),
        }
    }

    /// A second tree of the same formula. It fails for want of memory alone.
    pub fn try_clone(&self, alloc: Global) -> Result<Form, AllocError>
        ensures { IfOk result (λ form. tree_of form ≡ tree_of self.now) }
    {
        match self {
            Form::Var(name) => Ok(Form::Var(name.try_clone()?)),
            Form::Bot => Ok(Form::Bot),
            Form::Top => Ok(Form::Top),
            Form::Not(a) => Ok(Form::Not(Box::new(alloc, a.try_clone(alloc)?)?)),
            Form::And(a, b) => Ok(Form::And(
                Box::new(alloc, a.try_clone(alloc)?)?,
                Box::new(alloc, b.try_clone(alloc)?)?,
            )),
            Form::Or(a, b) => Ok(Form::Or(
                Box::new(alloc, a.try_clone(alloc)?)?,
                Box::new(alloc, b.try_clone(alloc)?)?,
            )),
            Form::Imp(a, b) => Ok(Form::Imp(
                Box::new(alloc, a.try_clone(alloc)?)?,
                Box::new(alloc, b.try_clone(alloc)?)?,
            )),
            Form::Iff(a, b) => Ok(Form::Iff(
                Box::new(alloc, a.try_clone(alloc)?)?,
                Box::new(alloc, b.try_clone(alloc)?)?,
            )),
            Form::Nec(a) => Ok(Form::Nec(Box::new(alloc, a.try_clone(alloc)?)?)),
            Form::Poss(a) => Ok(Form::Poss(Box::new(alloc, a.try_clone(alloc)?)?)),
        }
    }

    /// The formula with `by` for every occurrence of the variable. It fails for want of memory alone.
    pub fn substitute(&self, alloc: Global, name: &Name, by: &Form) -> Result<Form, AllocError>
        ensures { IfOk result (λ form. tree_of form ≡ replace name.now (tree_of by.now) (tree_of self.now)) }
    {
        match self {
            Form::Var(own) => {
                if name == own {
                    by.try_clone(alloc)
                } else {
                    Ok(Form::Var(own.try_clone()?))
                }
            }
            Form::Bot => Ok(Form::Bot),
            Form::Top => Ok(Form::Top),
            Form::Not(a) => Ok(Form::Not(Box::new(alloc, a.substitute(alloc, name, by)?)?)),
            Form::And(a, b) => Ok(Form::And(
                Box::new(alloc, a.substitute(alloc, name, by)?)?,
                Box::new(alloc, b.substitute(alloc, name, by)?)?,
            )),
            Form::Or(a, b) => Ok(Form::Or(
                Box::new(alloc, a.substitute(alloc, name, by)?)?,
                Box::new(alloc, b.substitute(alloc, name, by)?)?,
            )),
            Form::Imp(a, b) => Ok(Form::Imp(
                Box::new(alloc, a.substitute(alloc, name, by)?)?,
                Box::new(alloc, b.substitute(alloc, name, by)?)?,
            )),
            Form::Iff(a, b) => Ok(Form::Iff(
                Box::new(alloc, a.substitute(alloc, name, by)?)?,
                Box::new(alloc, b.substitute(alloc, name, by)?)?,
            )),
            Form::Nec(a) => Ok(Form::Nec(Box::new(alloc, a.substitute(alloc, name, by)?)?)),
            Form::Poss(a) => Ok(Form::Poss(Box::new(alloc, a.substitute(alloc, name, by)?)?)),
        }
    }

    /// The variables of the formula, each once, in the order of their bytes. It fails for want of memory alone.
    pub fn variables(&self, alloc: Global) -> Result<Vec<Name>, AllocError>
        ensures { IfOk result (λ names. AreVariables (tree_of self.now) names.items) }
    {
        let mut names = Vec::new(alloc);
        self.add_variables(&mut names)?;
        Ok(names)
    }

    // Adds the variables that aren't there yet, each in its place.
    fn add_variables(&self, names: &mut Vec<Name>) -> Result<(), AllocError>
        requires { AreInByteOrder names.old.items }
        ensures { OnOk result (AddsVariables (tree_of self.now) names.old.items names.new.items) }
    {
        match self {
            Form::Var(name) => add_name(names, name),
            Form::Bot | Form::Top => Ok(()),
            Form::Not(a) | Form::Nec(a) | Form::Poss(a) => a.add_variables(names),
            Form::And(a, b) | Form::Or(a, b) | Form::Imp(a, b) | Form::Iff(a, b) => {
                a.add_variables(names)?;
                b.add_variables(names)
            }
        }
    }
}

/// Puts the name into its place, unless it is there. It fails for want of memory alone.
pub fn add_name(names: &mut Vec<Name>, name: &Name) -> Result<(), AllocError>
    requires { AreInByteOrder names.old.items }
    ensures { OnOk result (AddsVariables (letter name.now) names.old.items names.new.items) }
{
    if let Err(place) = place_of(names.as_slice(), name) {
        names.insert(place, name.try_clone()?)?;
    }
    Ok(())
}

// Where the name stands, or where it would go.
fn place_of(names: &[Name], name: &Name) -> Result<usize, usize>
    requires { AreInByteOrder names.now }
    ensures found { IfOk result (λ _. Contains names.now name.now) }
    ensures absent { IfErr result (IsGapFor names.now name.now) }
{
    names.binary_search(name)
}
