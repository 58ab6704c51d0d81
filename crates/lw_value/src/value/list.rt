ghost use Rattle.std.specs.Prelude.{◌≡◌, ◌+◌, ◌<◌, ◌∷◌, ◌++◌, Some, [], length, min, slice_get, map, IfOk, IfSome, OnOk, OnErr};
ghost use Rattle.lw_value.specs.Values.{Val, weight};
ghost use Rattle.lw_value.specs.Views.{value_of};
ghost use Rattle.lw_value.specs.Private.KeptWeight.{load};

use super::{Items, Shared, Value};
use std::alloc::{AllocError, Global};
use std::rc::Rc;

impl Value {
    /// A second value that is equal to this one. It shares its text, its items or its certificate with it, so it takes
    /// few steps and copies nothing. It fails for want of memory alone.
    pub fn try_clone(&self) -> Result<Value, AllocError>
        ensures { IfOk result (λ value. value_of value ≡ value_of self.now) }
    {
        match self {
            Value::Formula(id) => Ok(Value::Formula(*id)),
            Value::Truth(truth) => Ok(Value::Truth(*truth)),
            Value::Number(number) => Ok(Value::Number(*number)),
            Value::Text(text) => Ok(Value::Text(text.clone()?)),
            Value::Items(items) => Ok(Value::Items(items.try_clone()?)),
            Value::Logic(logic) => Ok(Value::Logic(*logic)),
            Value::Certificate(certificate) => Ok(Value::Certificate(certificate.clone()?)),
            Value::Nothing => Ok(Value::Nothing),
        }
    }
}

/// 1, and for a list 1 more than the weights of its items, or the greatest `usize` where that is greater. It takes
/// one step, whatever the list.
pub fn weight(value: &Value) -> usize
    ensures { result ≡ min (weight (value_of value.now)) usize.MAX }
{
    match value {
        Value::Items(items) => items.load().saturating_add(1),
        Value::Formula(_)
        | Value::Truth(_)
        | Value::Number(_)
        | Value::Text(_)
        | Value::Logic(_)
        | Value::Certificate(_)
        | Value::Nothing => 1,
    }
}

impl Items {
    /// No items. It takes no memory.
    pub fn new() -> Items
        ensures { result ≡ [] }
    {
        Items { list: None }
    }

    /// Puts the value behind the items: in one step where no other list shares them, else behind a copy of them. It fails
    /// for want of memory alone, and then the items are as before.
    pub fn push(&mut self, alloc: Global, value: Value) -> Result<(), AllocError>
        ensures pushed { OnOk result (self.new ≡ self.old ++ value_of value ∷ []) }
        ensures failed { OnErr result (self.new ≡ self.old) }
    {
        if let Some(list) = &mut self.list {
            if let Some(own) = Rc::get_mut(list) {
                return own.push(value);
            }
        }
        let mut copy = Shared {
            values: copied(alloc, self.as_slice())?,
            weight: self.load(),
        };
        copy.push(value)?;
        self.list = Some(Rc::new(alloc, copy)?);
        Ok(())
    }

    /// How many items there are.
    pub fn count(&self) -> usize
        ensures { result ≡ length self.now }
    {
        self.as_slice().len()
    }

    /// The i-th item, from 0.
    pub fn get(&self, i: usize) -> &Value
        requires { i < length self.now }
        ensures { slice_get self.now i ≡ Some (value_of result.now) }
    {
        &self.as_slice()[i]
    }

    /// The same items, shared. It fails for want of memory alone.
    pub fn try_clone(&self) -> Result<Items, AllocError>
        ensures { IfOk result (λ items. items ≡ self.now) }
    {
        match &self.list {
            Some(list) => Ok(Items {
                list: Some(list.clone()?),
            }),
            None => Ok(Items::new()),
        }
    }

    /// The weights of the items together, or the greatest `usize` where they are greater.
    fn load(&self) -> usize
        ensures { result ≡ min (load self.now) usize.MAX }
    {
        match &self.list {
            Some(list) => list.weight,
            None => 0,
        }
    }

    /// The items, in order.
    pub fn as_slice(&self) -> &[Value]
        ensures { map value_of result.now ≡ self.now }
    {
        match &self.list {
            Some(list) => list.values.as_slice(),
            None => &[],
        }
    }

    /// The items, where no other list shares them.
    pub(super) fn into_values(self) -> Option<Vec<Value>>
        ensures { IfSome result (λ values. load (map value_of values.items) ≡ load self) }
    {
        let Items { list } = self;
        let Shared { values, weight: _ } = Rc::into_inner(list?)?;
        Some(values)
    }
}

impl Shared {
    #[tactic(auto, using(crate::proofs::LoadsJoined::load_last))]
    fn push(&mut self, value: Value) -> Result<(), AllocError>
        ensures values { OnOk result (self.new.values.items ≡ self.old.values.items ++ value ∷ []) }
        ensures kept { self.old.weight ≡ min (load (map value_of self.old.values.items)) usize.MAX
            → self.new.weight ≡ min (load (map value_of self.new.values.items)) usize.MAX }
        ensures failed { OnErr result (self.new.values.items ≡ self.old.values.items) }
    {
        let weight = self.weight.saturating_add(weight(&value));
        self.values.push(value)?;
        self.weight = weight;
        Ok(())
    }
}

/// Clones of the values.
fn copied(alloc: Global, values: &[Value]) -> Result<Vec<Value>, AllocError>
    ensures { IfOk result (λ copy. map value_of copy.items ≡ map value_of values.now) }
{
    let mut copy = Vec::with_capacity(alloc, values.len())?;
    for value in values {
        copy.push(value.try_clone()?)?;
    }
    Ok(copy)
}

/// Lets go of the value, but for the items that no other list shares: they are put to those that are left. Where there
/// is no memory for that, they are let go of here.
#[cycle(release)]
pub(super) fn take_apart(left: &mut Vec<Value>, value: Value)
    ensures { load (map value_of left.new.items) < load (map value_of left.old.items) + weight (value_of value) }
{
    if let Value::Items(items) = value {
        if let Some(mut inner) = items.into_values() {
            let _ = left.append(&mut inner);
        }
    }
}
