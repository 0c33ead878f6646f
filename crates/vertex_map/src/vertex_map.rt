//! A value for each number of a vertex.

ghost use Rattle.std.specs.Prelude.{◌≡◌, ◌==◌, ◌<◌, ℕ, [], if◌then◌else◌, length, OnOk, OnErr};
ghost use Rattle.vertex_map.specs.Values.{value_at};

use std::alloc::{AllocError, Global};
use std::marker::Model;

/// A kind of values that vertices have.
pub trait Values {
    /// A value.
    type Value: Copy;

    ghost absent: { ℕ → Self.Value };

    /// The value of the vertex of a number to which none was given.
    fn absent(number: usize) -> Self::Value
        ensures { result ≡ absent number };
}

/// A value for each number of a vertex. It takes memory up to the greatest to which one was given.
#[derive(Drop)]
pub struct VertexMap<V: Values> {
    values: Vec<V::Value>,
}

impl<V: Values> Model for VertexMap<V> {
    ghost use Rattle.std.specs.Prelude.{List};

    ghost Value = { List V.Value };

    ghost view = { λ map. map.values.items };
}

impl<V: Values> VertexMap<V> {
    /// No vertex has a value of its own.
    pub fn new(alloc: Global) -> VertexMap<V>
        ensures { result ≡ [] }
    {
        VertexMap {
            values: Vec::new(alloc),
        }
    }

    /// The value of the vertex of a number.
    pub fn get(&self, number: usize) -> V::Value
        ensures { result ≡ value_at V.absent self.now number }
    {
        if number < self.values.len() {
            self.values[number]
        } else {
            V::absent(number)
        }
    }

    /// Gives the vertex of a number a value. Where memory runs out, all have the values that they had.
    pub fn set(&mut self, number: usize, value: V::Value) -> Result<(), AllocError>
        ensures ok { OnOk result ((w : ℕ) → value_at V.absent self.new w
            ≡ (if w == number then value else value_at V.absent self.old w)) }
        ensures err { OnErr result ((w : ℕ) →
            value_at V.absent self.new w ≡ value_at V.absent self.old w) }
    {
        'grow: while self.values.len() <= number {
            let next = V::absent(self.values.len());
            self.values.push(next)?;
        }
        self.values[number] = value;
        Ok(())
    }

    /// Takes the value of the vertex of a number away.
    pub fn remove(&mut self, number: usize)
        ensures { (w : ℕ) → value_at V.absent self.new w
            ≡ (if w == number then V.absent w else value_at V.absent self.old w) }
    {
        if number < self.values.len() {
            self.values[number] = V::absent(number);
        }
    }

    /// The values of the vertices by number, up to the greatest to which one was given.
    pub fn as_slice(&self) -> &[V::Value]
        ensures { result.now ≡ self.now }
    {
        &self.values
    }
}
