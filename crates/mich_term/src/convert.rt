// Comparable values as values, and back.
ghost use Rattle.std.specs.Prelude.{◌≡◌, IfOk, IfSome, is_some};
ghost use Rattle.rules_data.specs.values.Val.{is_comparable};
ghost use Rattle.mich_term.specs.View.{datum as seen};
ghost use Rattle.mich_term.specs.ValueView.{val};

use crate::datum::Datum;
use crate::value::Value;
use mich_base::{Link, Memory};
use std::alloc::Global;

impl Datum {
    /// The same value among all values. Memory where there is no room for it.
    pub fn value(&self, alloc: Global) -> Result<Value, Memory>
        ensures { IfOk result (λ v. val v ≡ seen self.now) }
    {
        match self {
            Datum::Unit => Ok(Value::Unit),
            Datum::Bool(b) => Ok(Value::Bool(*b)),
            Datum::Number(n) => Ok(Value::Number(*n)),
            Datum::Text(text) => Ok(Value::Text(text.copy(alloc)?)),
            Datum::Bytes(bytes) => Ok(Value::Bytes(bytes.copy(alloc)?)),
            Datum::None => Ok(Value::None),
            Datum::Some(x) => {
                let value = x.get().value(alloc)?;
                Ok(Value::Some(Link::new(alloc, value)?))
            }
            Datum::Left(x) => {
                let value = x.get().value(alloc)?;
                Ok(Value::Left(Link::new(alloc, value)?))
            }
            Datum::Right(x) => {
                let value = x.get().value(alloc)?;
                Ok(Value::Right(Link::new(alloc, value)?))
            }
            Datum::Pair(x, y) => {
                let first = x.get().value(alloc)?;
                let second = y.get().value(alloc)?;
                let first = Link::new(alloc, first)?;
                let second = Link::new(alloc, second)?;
                Ok(Value::Pair(first, second))
            }
        }
    }
}

impl Value {
    /// The same value among the comparable ones. None exactly where it is of no comparable type; Memory where there is no
    /// room for it (Michelson reference, "Comparable types").
    pub fn datum(&self, alloc: Global) -> Result<Option<Datum>, Memory>
        ensures comparable { IfOk result (λ o. is_some o ≡ is_comparable (val self.now)) }
        ensures value { IfOk result (λ o. IfSome o (λ d. seen d ≡ val self.now)) }
    {
        match self {
            Value::Unit => Ok(Some(Datum::Unit)),
            Value::Bool(b) => Ok(Some(Datum::Bool(*b))),
            Value::Number(n) => Ok(Some(Datum::Number(*n))),
            Value::Text(text) => Ok(Some(Datum::Text(text.copy(alloc)?))),
            Value::Bytes(bytes) => Ok(Some(Datum::Bytes(bytes.copy(alloc)?))),
            Value::None => Ok(Some(Datum::None)),
            Value::Some(x) => match x.get().datum(alloc)? {
                Some(d) => Ok(Some(Datum::Some(Link::new(alloc, d)?))),
                None => Ok(None),
            },
            Value::Left(x) => match x.get().datum(alloc)? {
                Some(d) => Ok(Some(Datum::Left(Link::new(alloc, d)?))),
                None => Ok(None),
            },
            Value::Right(x) => match x.get().datum(alloc)? {
                Some(d) => Ok(Some(Datum::Right(Link::new(alloc, d)?))),
                None => Ok(None),
            },
            Value::Pair(x, y) => {
                let Some(first) = x.get().datum(alloc)? else {
                    return Ok(None);
                };
                let Some(second) = y.get().datum(alloc)? else {
                    return Ok(None);
                };
                let first = Link::new(alloc, first)?;
                let second = Link::new(alloc, second)?;
                Ok(Some(Datum::Pair(first, second)))
            }
            Value::List(_) | Value::Set(_) | Value::Map(_) | Value::BigMap(_) => Ok(None),
            Value::Lambda(_, _) | Value::Operation(_) | Value::Ticket(_) => Ok(None),
        }
    }
}
